//! What a line of a script does to a shelf, and what it is answered.
// Each function here makes the text that it answers: of what is appended to a longer one, a clause could only say that there is
// such a text. Heap, shelf and line are taken one by one: a struct around a lent shelf would hide what it holds afterwards.

ghost use Rattle.std.specs.Prelude.{◌≡◌, IfOk};
ghost use Rattle.text.specs.Hex.{bytes_in};
ghost use Rattle.shelf_script.specs.Orders.{asked};
ghost use Rattle.shelf_script.specs.Outcomes.{error_line, outcome_line, Added, Shown, Obeyed, Answered};

use crate::order::{LineFault, Order, read_order};
use crate::outcome::push_outcome;
use crate::print::{PrintFault, push_blobs};
use faults::ShelfFault;
use shelf::Shelf;
use std::alloc::{AllocError, Global};
use text::hex::read_bytes;
use text::shown::push_error;

/// Why a line is no order, as a line of its own.
pub fn error_text(heap: Global, fault: LineFault) -> Result<Vec<u8>, AllocError>
    ensures { IfOk result (λ v. v.items ≡ error_line fault) }
{
    let mut out = Vec::new(heap);
    push_error(&mut out, &fault.words())?;
    Ok(out)
}

// A line and how it ended.
fn outcome_text(
    heap: Global,
    line: &[u8],
    outcome: Result<(), ShelfFault>,
) -> Result<Vec<u8>, AllocError>
    ensures { IfOk result (λ v. v.items ≡ outcome_line line.now outcome) }
{
    let mut out = Vec::new(heap);
    push_outcome(&mut out, line, outcome)?;
    Ok(out)
}

// `add N HEX`.
fn add_text<S: Shelf>(
    heap: Global,
    shelf: &mut S,
    blob: u64,
    hex: &[u8],
    line: &[u8],
) -> Result<Vec<u8>, AllocError>
    ensures { IfOk result (λ v. Added blob (bytes_in hex.now) line.now (S.seen shelf.old) v.items (S.seen shelf.new)) }
{
    match read_bytes(heap, hex)? {
        Some(bytes) => {
            let outcome = shelf.add(blob, bytes.as_slice());
            outcome_text(heap, line, outcome)
        }
        None => error_text(heap, LineFault::BadHex),
    }
}

// `print`.
fn print_text<S: Shelf>(heap: Global, shelf: &mut S, line: &[u8]) -> Result<Vec<u8>, AllocError>
    ensures { IfOk result (λ v. Shown line.now (S.seen shelf.old) v.items (S.seen shelf.new)) }
{
    let mut out = Vec::new(heap);
    // A shelf's fault is an answer, and a lack of memory is none: the two go different ways.
    match push_blobs(&mut out, shelf) {
        Ok(()) => Ok(out),
        Err(PrintFault::Shelf(fault)) => outcome_text(heap, line, Err(fault)),
        Err(PrintFault::Memory(fault)) => Err(fault),
    }
}

// Carries an order out and tells how it ended. An order is data, and an arm for each says which call it is.
fn obey<S: Shelf>(
    heap: Global,
    shelf: &mut S,
    order: Order<'_>,
    line: &[u8],
) -> Result<Vec<u8>, AllocError>
    ensures { IfOk result (λ v. Obeyed (asked order.entry) line.now (S.seen shelf.old) v.items (S.seen shelf.new)) }
{
    let outcome = match order {
        Order::Make { blob } => shelf.make(blob),
        Order::Add { blob, hex } => return add_text(heap, shelf, blob, hex, line),
        Order::Cut { blob, len } => shelf.cut(blob, len),
        Order::Remove { blob } => shelf.remove(blob),
        Order::Sync { blob } => shelf.sync(blob),
        Order::Fail { write, part } => {
            shelf.choose(write, part);
            Ok(())
        }
        Order::Restart => shelf.restart(),
        Order::Print => return print_text(heap, shelf, line),
    };
    outcome_text(heap, line, outcome)
}

/// Carries out what a line asks of a shelf, and answers it: whole lines, without the line itself where it is no order.
pub fn answer_order<S: Shelf>(
    heap: Global,
    shelf: &mut S,
    line: &[u8],
) -> Result<Vec<u8>, AllocError>
    ensures { IfOk result (λ v. Answered line.now (S.seen shelf.old) v.items (S.seen shelf.new)) }
{
    match read_order(line) {
        Ok(order) => obey(heap, shelf, order, line),
        Err(fault) => error_text(heap, fault),
    }
}
