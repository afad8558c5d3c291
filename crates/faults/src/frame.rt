//! Faults of the reading of frames.

ghost use Rattle.std.specs.Prelude.{◌≡◌};
ghost use Rattle.faults.specs.declared.frame.FrameFault.TheVariants.{Shelf};
ghost use Rattle.faults.specs.Refusals.{frame_refusal, unread};

use crate::refusal::{Detail, Layer, Refusal};
use crate::shelf::ShelfFault;

/// Where a frame begins.
#[derive(Clone, Copy, PartialEq, Eq)]
pub struct Place {
    /// The number of the blob.
    pub blob: u64,
    /// The byte of the blob, counted from 0.
    pub byte: u64,
}

/// Why no piece could be read.
#[derive(Clone, Copy, PartialEq, Eq)]
pub enum FrameFault {
    /// The fault of the shelf that was read.
    Shelf(ShelfFault),
    /// No length prefix stands where a frame begins, and the blob goes on behind it.
    BadPrefix(Place),
    /// The frame is whole, and its item kind refuses the payload.
    ItemUnreadable(Place),
}

impl From<ShelfFault> for FrameFault {
    ghost from_gives = { λ e r. r ≡ Shelf e };

    fn from(lower: ShelfFault) -> FrameFault {
        FrameFault::Shelf(lower)
    }
}

/// The refusal that a fault of the reading of frames is shown as.
impl From<FrameFault> for Refusal {
    ghost from_gives = { λ e r. r ≡ frame_refusal e };

    fn from(fault: FrameFault) -> Refusal {
        match fault {
            FrameFault::BadPrefix(place) => unread(11, place),
            FrameFault::ItemUnreadable(place) => unread(12, place),
            FrameFault::Shelf(shelf) => Refusal::from(shelf),
        }
    }
}

/// A frame that cannot be read, by its blob and the byte where it begins.
fn unread(number: u8, place: Place) -> Refusal
    ensures { result ≡ unread number place }
{
    Refusal {
        detail: Some(Detail::Byte(place)),
        ..Refusal::told(Layer::Frames, number)
    }
}
