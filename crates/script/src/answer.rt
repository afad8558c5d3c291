//! What each line of a script is answered.

ghost use Rattle.std.specs.Prelude.{◌≡◌, ◌++◌, IfOk, OnOk};
ghost use Rattle.text.specs.Hex.{bytes_in};
ghost use Rattle.script.specs.Answers.{blob_text, scan_text, answer_of, transcript_of};

use crate::blob::push_blob;
use crate::command::{Command, KindName, ScriptFault, read_command};
use items::{Events, SpokenLines};
use std::alloc::{AllocError, Global};
use text::hex::read_bytes;
use text::shown::push_error;

// Appends the report of a blob whose items are of the kind that is named.
// A kind is a type: an arm for each name picks it, where a `dyn` would only hide which two there are.
fn push_kind(out: &mut Vec<u8>, kind: KindName, bytes: &[u8]) -> Result<(), AllocError>
    ensures { OnOk result (out.new.items ≡ out.old.items ++ blob_text kind bytes.now) }
{
    match kind {
        KindName::Line => push_blob(out, &SpokenLines, bytes),
        KindName::Event => push_blob(out, &Events, bytes),
    }
}

// `scan KIND HEX`.
fn push_scan(out: &mut Vec<u8>, kind: KindName, hex: &[u8]) -> Result<(), AllocError>
    ensures { OnOk result (out.new.items ≡ out.old.items ++ scan_text kind (bytes_in hex.now)) }
{
    match read_bytes(*out.allocator(), hex)? {
        Some(bytes) => push_kind(out, kind, bytes.as_slice()),
        None => push_error(out, &ScriptFault::BadHex.words()),
    }
}

// Appends what a line is answered.
fn push_answer(out: &mut Vec<u8>, line: &[u8]) -> Result<(), AllocError>
    ensures { OnOk result (out.new.items ≡ out.old.items ++ answer_of line.now) }
{
    match read_command(line) {
        Ok(None) => Ok(()),
        Ok(Some(Command::Scan { kind, hex })) => push_scan(out, kind, hex),
        Err(fault) => push_error(out, &fault.words()),
    }
}

/// What a line of a script is answered, without the byte that ends the line: nothing, or whole lines.
pub fn answer_line(heap: Global, line: &[u8]) -> Result<Vec<u8>, AllocError>
    ensures { IfOk result (λ v. v.items ≡ answer_of line.now) }
{
    let mut out = Vec::new(heap);
    push_answer(&mut out, line)?;
    Ok(out)
}

/// A line of a script behind `> `, and below it what the line is answered.
pub fn transcript_line(heap: Global, line: &[u8]) -> Result<Vec<u8>, AllocError>
    ensures { IfOk result (λ v. v.items ≡ transcript_of line.now) }
{
    let mut shown = Vec::new(heap);
    shown.extend_from_slice(b"> ")?;
    shown.extend_from_slice(line)?;
    shown.extend_from_slice(b"\n")?;
    push_answer(&mut shown, line)?;
    Ok(shown)
}
