//! What the blobs of a shelf hold, as text.

ghost use Rattle.std.specs.Prelude.{◌≡◌, ◌++◌, vec_items, OnOk};
ghost use Rattle.shelf_script.specs.declared.print.PrintFault.TheVariants.{Shelf, Memory};
ghost use Rattle.shelf_script.specs.Outcomes.{blob_text};
ghost use Rattle.shelf_script.specs.Prints.{BytesRead, BlobPrinted, Printed};

use faults::ShelfFault;
use shelf::Shelf;
use std::alloc::{AllocError, Global};
use text::hex::push_bytes;
use text::shown::write_shown;

/// Why the blobs of a shelf are not shown.
#[derive(Clone, Copy)]
pub enum PrintFault {
    /// The shelf could not tell.
    Shelf(ShelfFault),
    /// There is no memory for the text.
    Memory(AllocError),
}

impl From<ShelfFault> for PrintFault {
    ghost from_gives = { λ e r. r ≡ Shelf e };

    fn from(fault: ShelfFault) -> PrintFault {
        PrintFault::Shelf(fault)
    }
}

impl From<AllocError> for PrintFault {
    ghost from_gives = { λ e r. r ≡ Memory e };

    fn from(fault: AllocError) -> PrintFault {
        PrintFault::Memory(fault)
    }
}

// Appends `blob N safe S bytes HEX`.
fn push_blob_line(out: &mut Vec<u8>, blob: u64, safe: u64, bytes: &[u8]) -> Result<(), AllocError>
    ensures { OnOk result (out.new.items ≡ out.old.items ++ blob_text blob safe bytes.now) }
{
    write_shown(out, format_args!("blob {blob} safe {safe} bytes "))?;
    push_bytes(out, bytes)?;
    out.extend_from_slice(b"\n")
}

// The bytes of a blob.
fn read_all<S: Shelf>(heap: Global, shelf: &mut S, blob: u64) -> Result<Vec<u8>, PrintFault>
    ensures { BytesRead vec_items blob (S.seen shelf.old) result (S.seen shelf.new) }
{
    let len = shelf.len(blob)?;
    let mut bytes = vec![in heap; 0; len as usize]?;
    shelf.read(blob, 0, bytes.as_mut_slice())?;
    Ok(bytes)
}

// Appends the line of a blob.
fn push_blob<S: Shelf>(out: &mut Vec<u8>, shelf: &mut S, blob: u64) -> Result<(), PrintFault>
    ensures { BlobPrinted blob (S.seen shelf.old) out.old.items result (S.seen shelf.new) out.new.items }
{
    let safe = shelf.safe_count(blob)?;
    let bytes = read_all(*out.allocator(), shelf, blob)?;
    push_blob_line(out, blob, safe, bytes.as_slice())?;
    Ok(())
}

/// Appends a line for each blob of a shelf, in rising number. On a shelf that is down nothing is appended, and it says so.
pub fn push_blobs<S: Shelf>(out: &mut Vec<u8>, shelf: &mut S) -> Result<(), PrintFault>
    ensures { Printed (S.seen shelf.old) out.old.items result (S.seen shelf.new) out.new.items }
{
    let count = shelf.count()?;
    // A shelf is asked by place: a question may fail and needs it whole, so nothing iterates over one.
    for i in 0..count {
        let blob = shelf.number_at(i)?;
        push_blob(out, shelf, blob)?;
    }
    Ok(())
}
