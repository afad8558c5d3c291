//! The report of a blob: a line for each whole frame, and one line for what ends the reading.

ghost use Rattle.std.specs.Prelude.{◌≡◌, ◌++◌, IfOk, OnOk};
ghost use Rattle.script.specs.Blobs.{piece_behind, PieceTold, report_of};

use crate::report::{ItemText, push_end, push_frame, push_refusal, push_torn};
use faults::Place;
use frame::{Piece, piece_at};
use std::alloc::AllocError;

/// The number that a blob goes by which is shown alone.
const BLOB: u64 = 0;

// Appends the line of the piece that stands at a byte, behind `index` frames, and answers the size of
// an item, behind which the reading goes on. Two functions take index and byte: a struct of the two is no plainer.
fn push_piece<K: ItemText>(
    out: &mut Vec<u8>,
    kind: &K,
    bytes: &[u8],
    index: u64,
    byte: u64,
) -> Result<Option<usize>, AllocError>
    ensures { IfOk result (λ next. PieceTold (K.text kind.now) index byte (piece_behind (K.meaning kind.now) bytes.now index byte) out.old.items out.new.items next) }
{
    match piece_at(kind, Place { blob: BLOB, byte }, index, bytes) {
        Ok(Piece::Item { payload, size, .. }) => {
            push_frame(out, kind, index, byte, payload)?;
            Ok(Some(size))
        }
        Ok(Piece::Torn { rest, .. }) => {
            push_torn(out, byte, rest.len() as u64)?;
            Ok(None)
        }
        Ok(Piece::End { .. }) => {
            push_end(out, byte)?;
            Ok(None)
        }
        Err(fault) => {
            push_refusal(out, fault.into())?;
            Ok(None)
        }
    }
}

// Appends the report of a blob whose frames are counted from position 0 on.
// The walk is a loop as in `scan_blob`, by the same rule of the project; of the two one counts and one writes, so an iterator that both
// would use is longer than what they share.
pub(crate) fn push_blob<K: ItemText>(
    out: &mut Vec<u8>,
    kind: &K,
    bytes: &[u8],
) -> Result<(), AllocError>
    ensures { OnOk result (out.new.items ≡ out.old.items ++ report_of (K.meaning kind.now) (K.text kind.now) bytes.now) }
{
    let mut index: u64 = 0;
    let mut byte: u64 = 0;
    while let Some(size) = push_piece(out, kind, bytes, index, byte)? {
        index += 1;
        byte += size as u64;
    }
    Ok(())
}
