//! Faults of an offsets journal, the index from a position to the byte where its frame begins.

ghost use Rattle.std.specs.Prelude.{◌≡◌};
ghost use Rattle.faults.specs.declared.offsets.OffsetsFault.TheVariants.{Shelf};
ghost use Rattle.faults.specs.Refusals.{offsets_refusal};

use crate::refusal::{Layer, Refusal};
use crate::shelf::ShelfFault;

/// Why an offsets journal refused a call, or could not carry it out.
#[derive(Clone, Copy, PartialEq, Eq)]
pub enum OffsetsFault {
    /// It holds its capacity of offsets.
    Full,
    /// A position or an offset above 2^56.
    OutOfRange,
    /// The power failed.
    Down,
    /// What it stands on fits no state of an offsets journal.
    Damaged,
    /// The fault of the shelf that it is filed on.
    Shelf(ShelfFault),
}

impl From<ShelfFault> for OffsetsFault {
    ghost from_gives = { λ e r. r ≡ Shelf e };

    fn from(lower: ShelfFault) -> OffsetsFault {
        OffsetsFault::Shelf(lower)
    }
}

/// The refusal that a fault of an offsets journal is shown as.
impl From<OffsetsFault> for Refusal {
    ghost from_gives = { λ e r. r ≡ offsets_refusal e };

    fn from(fault: OffsetsFault) -> Refusal {
        match fault {
            OffsetsFault::Full => Refusal::told(Layer::Recovery, 5),
            OffsetsFault::Down => Refusal::told(Layer::Recovery, 13),
            OffsetsFault::Damaged => Refusal::damaged(Layer::Recovery),
            OffsetsFault::OutOfRange => Refusal::unnumbered(Layer::Recovery),
            OffsetsFault::Shelf(shelf) => Refusal::from(shelf),
        }
    }
}
