//! What a refusal tells: which layer found the fault, its number, and the values beside it.

ghost use Rattle.std.specs.Prelude.{◌≡◌, Some};
ghost use Rattle.faults.specs.Refusals.{told, unnumbered, damaged};
ghost use Rattle.faults.specs.Texts.{detail_text, refusal_text};

use crate::frame::Place;
use crate::reason::Reason;
use std::fmt;

/// The layer that found a fault.
#[derive(Clone, Copy, PartialEq, Eq)]
pub enum Layer {
    /// A store of blobs.
    Shelf,
    /// The reading of frames.
    Frames,
    /// Recovery, the journal and the offsets journal.
    Recovery,
}

/// The values that a refusal carries beside its number.
#[derive(Clone, Copy, PartialEq, Eq)]
pub enum Detail {
    /// The reason for which an item kind refuses an item.
    Reason(Reason),
    /// The kind of a corruption.
    // A closed list that users and other programs know (rule of the project): `Corruption` is the fault, each kind stands in its `From`, and 8 in `damaged`.
    Kind(u8),
    /// The kind of a corruption, and the blob that it names.
    // A kind of the same list (rule of the project); shown with a blob or without are two shapes of what is printed.
    KindOfBlob { kind: u8, blob: u64 },
    /// The blob, and the byte in it where the frame begins.
    Byte(Place),
}

/// A fault as a user is shown it.
#[derive(Clone, Copy, PartialEq, Eq)]
pub struct Refusal {
    /// The layer of the innermost fault.
    pub layer: Layer,
    /// 1 to 13; none for a fault that no act of the journal lets out.
    // A closed list that users and other programs know (rule of the project): the enums are the faults, and each fault's number stands in its `From`.
    pub number: Option<u8>,
    /// The values that go with the number, if it has any.
    pub detail: Option<Detail>,
}

impl Refusal {
    /// A number, and no value beside it.
    pub(crate) fn told(layer: Layer, number: u8) -> Refusal
        ensures { result ≡ told layer number }
    {
        Refusal {
            layer,
            number: Some(number),
            detail: None,
        }
    }

    /// No number: no act of the journal lets such a fault out.
    pub(crate) fn unnumbered(layer: Layer) -> Refusal
        ensures { result ≡ unnumbered layer }
    {
        Refusal {
            layer,
            number: None,
            detail: None,
        }
    }

    /// Corruption of kind 8: the bytes of a store fit no state of it.
    pub(crate) fn damaged(layer: Layer) -> Refusal
        ensures { result ≡ damaged layer }
    {
        Refusal {
            detail: Some(Detail::Kind(8)),
            ..Refusal::told(layer, 10)
        }
    }
}

impl fmt::Display for Detail {
    ghost output = { λ d. Some (detail_text d) };

    fn fmt<W: fmt::Write>(&self, f: &mut fmt::Formatter<W>) -> fmt::Result {
        match *self {
            Detail::Reason(reason) => write!(f, " reason {}", reason.number),
            Detail::Kind(kind) => write!(f, " kind {kind}"),
            Detail::KindOfBlob { kind, blob } => write!(f, " kind {kind} blob {blob}"),
            Detail::Byte(Place { blob, byte }) => write!(f, " blob {blob} byte {byte}"),
        }
    }
}

impl fmt::Display for Refusal {
    ghost output = { λ r. Some (refusal_text r) };

    fn fmt<W: fmt::Write>(&self, f: &mut fmt::Formatter<W>) -> fmt::Result {
        f.write_str("refused")?;
        if let Some(number) = self.number {
            write!(f, " {number}")?;
        }
        if let Some(detail) = self.detail {
            write!(f, "{detail}")?;
        }
        Ok(())
    }
}

#[cfg(test)]
mod tests {
    use super::*;
    use crate::shelf::ShelfCause;
    use std::test::Fail;

    #[test]
    fn a_refusal_and_a_cause_as_they_are_printed(rt: HostRuntime) -> Result<(), Fail> {
        let refusal = Refusal {
            layer: Layer::Recovery,
            number: Some(10),
            detail: Some(Detail::KindOfBlob { kind: 3, blob: 7 }),
        };
        let text = format!(in rt.alloc(); "{refusal}, {}", ShelfCause::TooLong)?;
        assert_eq!(rt; text.as_str(), "refused 10 kind 3 blob 7, too-long");
        Ok(())
    }
}
