//! Faults of a shelf, a store of numbered blobs.

ghost use Rattle.std.specs.Prelude.{◌≡◌, Some};
ghost use Rattle.faults.specs.Refusals.{shelf_refusal};
ghost use Rattle.faults.specs.Texts.{cause_name};

use crate::refusal::{Layer, Refusal};
use std::fmt;

/// Why a shelf refused a call, or could not carry it out.
#[derive(Clone, Copy, PartialEq, Eq)]
pub enum ShelfCause {
    /// The blob is not there.
    Missing,
    /// The blob to be made is there already.
    Present,
    /// The shelf holds its maximum of blobs.
    Full,
    /// The blob would grow above the shelf's blob size.
    TooLong,
    /// A blob number above 2^56, or a part outside the blob's bytes.
    OutOfRange,
    /// The power failed.
    Down,
    /// What the shelf stands on fits no state of a shelf.
    Damaged,
}

/// A fault of a shelf: its cause, and the blob that was spoken of.
#[derive(Clone, Copy, PartialEq, Eq)]
pub struct ShelfFault {
    /// What went wrong.
    pub cause: ShelfCause,
    /// The number of the blob that the call named.
    pub blob: u64,
}

impl ShelfCause {
    /// What it is called. Each cause has a name, which printing may only fail to write.
    pub fn name(self) -> &'static str
        ensures { result.now ≡ cause_name self }
    {
        match self {
            ShelfCause::Missing => "missing",
            ShelfCause::Present => "present",
            ShelfCause::Full => "full",
            ShelfCause::TooLong => "too-long",
            ShelfCause::OutOfRange => "out-of-range",
            ShelfCause::Down => "down",
            ShelfCause::Damaged => "damaged",
        }
    }
}

impl fmt::Display for ShelfCause {
    ghost output = { λ c. Some (cause_name c) };

    fn fmt<W: fmt::Write>(&self, f: &mut fmt::Formatter<W>) -> fmt::Result {
        f.write_str(self.name())
    }
}

/// The refusal that a fault of a shelf is shown as.
impl From<ShelfFault> for Refusal {
    ghost from_gives = { λ e r. r ≡ shelf_refusal e };

    fn from(fault: ShelfFault) -> Refusal {
        match fault.cause {
            ShelfCause::Full => Refusal::told(Layer::Shelf, 5),
            ShelfCause::Down => Refusal::told(Layer::Shelf, 13),
            ShelfCause::Damaged => Refusal::damaged(Layer::Shelf),
            ShelfCause::Missing
            | ShelfCause::Present
            | ShelfCause::TooLong
            | ShelfCause::OutOfRange => Refusal::unnumbered(Layer::Shelf),
        }
    }
}
