//! Faults of recovery and of the journal's acts.

ghost use Rattle.std.specs.Prelude.{◌≡◌};
ghost use Rattle.faults.specs.declared.frame.FrameFault.TheVariants.{Shelf};
ghost use Rattle.faults.specs.declared.recovery.RecoveryFault.TheVariants.{Frame, ItemRefused, Offsets};
ghost use Rattle.faults.specs.Refusals.{corruption_detail, recovery_refusal};

use crate::frame::FrameFault;
use crate::offsets::OffsetsFault;
use crate::reason::Reason;
use crate::refusal::{Detail, Layer, Refusal};
use crate::shelf::ShelfFault;

/// How the two stores of a journal contradict each other.
#[derive(Clone, Copy, PartialEq, Eq)]
pub enum Corruption {
    /// Kind 1: the offsets end below the first position of the oldest blob.
    OffsetsBehindData,
    /// Kind 2: the offsets begin in a blob above the oldest one.
    BoundaryAboveOldest,
    /// Kind 3: this blob, the lowest such, is missing between start and anchor.
    MissingBlob(u64),
    /// Kind 4: the data end below a position that was promised or asked for.
    DataTooShort,
    /// Kind 5: a full blob holds one more frame.
    BlobOverfull,
    /// Kind 6: offsets are retained, and no blob is there.
    OffsetsWithoutData,
    /// Kind 7: the newest blob with a frame does not reach the end.
    EndNotBacked,
}

/// Why an act of the journal was refused, or could not be carried out.
#[derive(Clone, Copy, PartialEq, Eq)]
pub enum RecoveryFault {
    /// 1: a position or a ceiling below the start.
    ItemPruned,
    /// 2: a position from the end on, or a clear below the end.
    ItemOutOfRange,
    /// 3: the journal is not open.
    NotOpen,
    /// 4: the item kind refuses the item, for this reason.
    ItemRefused(Reason),
    /// 5: no blob is left for the next record.
    NoSpace,
    /// 6: a position above 2^56.
    PositionLimit,
    /// 7: the caller's buffer is shorter than the item.
    ShortBuffer,
    /// 8: the configuration does not fit the stores.
    Config,
    /// 9: a stored position above 2^56.
    OffsetOverflow,
    /// 10: the stores contradict each other.
    Corrupt(Corruption),
    /// The fault of the reading of frames, or of the shelf below it.
    Frame(FrameFault),
    /// The fault of the offsets journal.
    Offsets(OffsetsFault),
}

impl From<FrameFault> for RecoveryFault {
    ghost from_gives = { λ e r. r ≡ Frame e };

    fn from(lower: FrameFault) -> RecoveryFault {
        RecoveryFault::Frame(lower)
    }
}

impl From<OffsetsFault> for RecoveryFault {
    ghost from_gives = { λ e r. r ≡ Offsets e };

    fn from(lower: OffsetsFault) -> RecoveryFault {
        RecoveryFault::Offsets(lower)
    }
}

// A call on a shelf that is made outside the reading of frames goes the same way up.
impl From<ShelfFault> for RecoveryFault {
    ghost from_gives = { λ e r. r ≡ Frame (Shelf e) };

    fn from(lower: ShelfFault) -> RecoveryFault {
        RecoveryFault::Frame(FrameFault::Shelf(lower))
    }
}

impl From<Reason> for RecoveryFault {
    ghost from_gives = { λ e r. r ≡ ItemRefused e };

    fn from(lower: Reason) -> RecoveryFault {
        RecoveryFault::ItemRefused(lower)
    }
}

/// The kind of a corruption, 1 to 7, with the blob that kind 3 names.
impl From<Corruption> for Detail {
    ghost from_gives = { λ c r. r ≡ corruption_detail c };

    fn from(corruption: Corruption) -> Detail {
        match corruption {
            Corruption::OffsetsBehindData => Detail::Kind(1),
            Corruption::BoundaryAboveOldest => Detail::Kind(2),
            Corruption::MissingBlob(blob) => Detail::KindOfBlob { kind: 3, blob },
            Corruption::DataTooShort => Detail::Kind(4),
            Corruption::BlobOverfull => Detail::Kind(5),
            Corruption::OffsetsWithoutData => Detail::Kind(6),
            Corruption::EndNotBacked => Detail::Kind(7),
        }
    }
}

/// The refusal that a fault of an act of the journal is shown as.
impl From<RecoveryFault> for Refusal {
    ghost from_gives = { λ e r. r ≡ recovery_refusal e };

    fn from(fault: RecoveryFault) -> Refusal {
        match fault {
            RecoveryFault::ItemPruned => Refusal::told(Layer::Recovery, 1),
            RecoveryFault::ItemOutOfRange => Refusal::told(Layer::Recovery, 2),
            RecoveryFault::NotOpen => Refusal::told(Layer::Recovery, 3),
            RecoveryFault::ItemRefused(reason) => Refusal {
                detail: Some(Detail::Reason(reason)),
                ..Refusal::told(Layer::Recovery, 4)
            },
            RecoveryFault::NoSpace => Refusal::told(Layer::Recovery, 5),
            RecoveryFault::PositionLimit => Refusal::told(Layer::Recovery, 6),
            RecoveryFault::ShortBuffer => Refusal::told(Layer::Recovery, 7),
            RecoveryFault::Config => Refusal::told(Layer::Recovery, 8),
            RecoveryFault::OffsetOverflow => Refusal::told(Layer::Recovery, 9),
            RecoveryFault::Corrupt(corruption) => Refusal {
                detail: Some(Detail::from(corruption)),
                ..Refusal::told(Layer::Recovery, 10)
            },
            RecoveryFault::Frame(frame) => Refusal::from(frame),
            RecoveryFault::Offsets(offsets) => Refusal::from(offsets),
        }
    }
}
