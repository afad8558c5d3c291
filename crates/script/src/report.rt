//! The lines of a report, and the text of an item in them.
//!
//! A report is collected in a `Vec<u8>`; each function here appends one part of it. Where memory runs
//! out, the report that was begun is let go, and nothing of it is shown.

ghost use Rattle.std.specs.Prelude.{◌≡◌, ℕ, List, ◌++◌, OnOk};
ghost use Rattle.script.specs.Reports.{event_text, spoken_text, frame_line, end_line, torn_line, refused_line};

use faults::Refusal;
use items::{Event, Events, ItemKind, SpokenLines};
use std::alloc::AllocError;
use text::shown::write_shown;

/// A kind whose items have a text to be shown.
pub trait ItemText: ItemKind {
    // The text of an item.
    ghost text: { Self → List ℕ → List ℕ };

    /// Appends the text of an item.
    fn push_item(&self, item: &[u8], out: &mut Vec<u8>) -> Result<(), AllocError>
        ensures { OnOk result (out.new.items ≡ out.old.items ++ text self.now item.now) };
}

// A spoken line is its own text.
impl ItemText for SpokenLines {
    ghost text = { λ _ bs. spoken_text bs };

    fn push_item(&self, item: &[u8], out: &mut Vec<u8>) -> Result<(), AllocError> {
        out.extend_from_slice(item)
    }
}

// `gate 4 open 400 mm operator 1700000000`; a record that is no event has no text.
impl ItemText for Events {
    ghost text = { λ _ bs. event_text bs };

    fn push_item(&self, item: &[u8], out: &mut Vec<u8>) -> Result<(), AllocError> {
        match Event::decode(item) {
            Ok(event) => write_shown(out, event),
            Err(_) => Ok(()),
        }
    }
}

// `frame I byte B TEXT`: a whole frame, by its index and the byte where it begins.
pub(crate) fn push_frame<K: ItemText>(
    out: &mut Vec<u8>,
    kind: &K,
    index: u64,
    byte: u64,
    item: &[u8],
) -> Result<(), AllocError>
    ensures { OnOk result (out.new.items ≡ out.old.items ++ frame_line index byte (K.text kind.now item.now)) }
{
    write_shown(out, format_args!("frame {index} byte {byte} "))?;
    kind.push_item(item, out)?;
    out.extend_from_slice(b"\n")
}

// `end N`: a blob of N bytes, all of them whole frames.
pub(crate) fn push_end(out: &mut Vec<u8>, size: u64) -> Result<(), AllocError>
    ensures { OnOk result (out.new.items ≡ out.old.items ++ end_line size) }
{
    write_shown(out, format_args!("end {size}\n"))
}

// `torn N rest K`: N bytes of whole frames, and K bytes that follow.
pub(crate) fn push_torn(out: &mut Vec<u8>, size: u64, rest: u64) -> Result<(), AllocError>
    ensures { OnOk result (out.new.items ≡ out.old.items ++ torn_line size rest) }
{
    write_shown(out, format_args!("torn {size} rest {rest}\n"))
}

// `refused N` and the values of the refusal.
pub(crate) fn push_refusal(out: &mut Vec<u8>, refusal: Refusal) -> Result<(), AllocError>
    ensures { OnOk result (out.new.items ≡ out.old.items ++ refused_line refusal) }
{
    write_shown(out, format_args!("{refusal}\n"))
}
