//! The text of what can be displayed.
//!
//! `write_shown` writes piece by piece behind what is there, and takes no memory but what that needs; `push_shown` makes the text first,
//! so that `out` still begins with what it held where memory runs out.
// `write!` on a `Vec<u8>` answers an `io::Error`; what is appended here answers the `AllocError` that it is. Each writer says by an
// equation what it appends: a type around the vector would only save the word `.items`, and a word for the equation is no shorter.

ghost use Rattle.std.specs.Prelude.{◌≡◌, ◌++◌, IfSome, OnOk};
ghost use Rattle.text.specs.Grown.{Grown};
ghost use Rattle.text.specs.Shown.{error_text};

use std::alloc::AllocError;
use std::fmt::{self, Display, Write};
use std::mem::replace;

/// Bytes that text is written behind.
#[derive(Drop)]
struct Tail {
    bytes: Vec<u8>,
}

impl Write for Tail {
    ghost write_str_gives = { λ s bs t. t.bytes.items ≡ s.bytes.items ++ bs };

    fn write_str(&mut self, text: &str) -> fmt::Result {
        self.bytes.extend_from_slice(text.as_bytes())?;
        Ok(())
    }
}

/// Appends what is displayed, piece by piece: where its type states its text, just that text.
///
/// Where memory runs out, nothing is promised of what `out` holds: who needs that calls `push_shown`. The lines of a report go this way,
/// since a report that was begun is then let go: a text of its own for each line costs about as much again as writing it.
pub fn write_shown<D: Display + Drop>(out: &mut Vec<u8>, shown: D) -> Result<(), AllocError>
    ensures { IfSome (D.output shown) (λ text. OnOk result (out.new.items ≡ out.old.items ++ text)) }
{
    let empty = Vec::new(*out.allocator());
    let mut tail = Tail {
        bytes: replace(out, empty),
    };
    let written = tail.write(shown);
    *out = tail.bytes;
    written.map_err(|_| AllocError)
}

/// Appends what is displayed: where its type states its text, just that text.
///
/// Where memory runs out, `out` still begins with what it held.
pub fn push_shown<D: Display>(out: &mut Vec<u8>, shown: &D) -> Result<(), AllocError>
    ensures writes { IfSome (D.output shown.now) (λ text. OnOk result (out.new.items ≡ out.old.items ++ text)) }
    ensures keeps { Grown out.old.items out.new.items }
{
    let text = shown.to_string(*out.allocator())?;
    out.extend_from_slice(text.as_bytes())?;
    Ok(())
}

/// Appends the line that tells of a fault: `error: ` and the fault's text.
///
/// Where memory runs out, `out` still begins with what it held.
pub fn push_error<E: Display>(out: &mut Vec<u8>, fault: &E) -> Result<(), AllocError>
    ensures writes { IfSome (E.output fault.now) (λ text. OnOk result (out.new.items ≡ out.old.items ++ error_text text)) }
    ensures keeps { Grown out.old.items out.new.items }
{
    out.extend_from_slice(b"error: ")?;
    push_shown(out, fault)?;
    out.push(b'\n')?;
    Ok(())
}
