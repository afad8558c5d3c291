//! The reason for which an item kind refuses an item.

/// The number of the reason for which an item kind refuses an item.
#[derive(Clone, Copy, PartialEq, Eq, Debug)]
pub struct Reason {
    /// The number among the reasons of the kind.
    // Kinds of items are open to more, each with its own enum of reasons; what is kept and shown of a reason is a number.
    pub number: u8,
}
