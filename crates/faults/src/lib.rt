//! What can go wrong, layer by layer, and the refusal that each fault is shown as.
//!
//! A fault of a lower layer is kept whole inside the fault of the layer above it, so nothing that
//! the lower layer told (its cause, its blob, its byte) is lost on the way up:
//!
//!     ShelfFault -> FrameFault -> RecoveryFault
//!     ShelfFault -> OffsetsFault -> RecoveryFault
//!
//! What a user is shown is a `Refusal`: the layer of the innermost fault, its number, its values.
#![tactic(auto)]

mod frame;
mod offsets;
mod reason;
mod recovery;
mod refusal;
mod shelf;

pub use frame::{FrameFault, Place};
pub use offsets::OffsetsFault;
pub use reason::Reason;
pub use recovery::{Corruption, RecoveryFault};
pub use refusal::{Detail, Layer, Refusal};
pub use shelf::{ShelfCause, ShelfFault};
