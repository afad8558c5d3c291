//! A line of a script that says which shelf is to be used from there on: `shelf STACK max=N size=N`.

ghost use Rattle.std.specs.Prelude.{◌≡◌};
ghost use Rattle.std.specs.Option.{ok_or};
ghost use Rattle.shelf_script.specs.declared.order.LineFault.TheVariants.{UnknownStack};
ghost use Rattle.shelf_script.specs.Orders.{behind, with_rest};
ghost use Rattle.shelf_script.specs.Openings.{is_opening, stack_of, stack_in, setting_of, setting_in, opening_in, opening_of};

use crate::order::LineFault;
use text::decimal::read_decimal;
use text::word::{Split, first_word, next_word, no_word};

/// A stack of shelves, the upper ones first.
#[derive(Clone, Copy)]
pub enum Stack {
    /// `memory`
    Memory,
    /// `buffer/memory`
    BufferMemory,
    /// `cutter/memory`
    CutterMemory,
    /// `buffer/cutter/memory`
    BufferCutterMemory,
    /// `cutter/buffer/memory`
    CutterBufferMemory,
}

/// A shelf that is to be constructed.
#[derive(Clone, Copy)]
pub struct Opening {
    /// What it is made of.
    pub stack: Stack,
    /// The most blobs that it may hold.
    pub max: u64,
    /// The most bytes that a blob may have.
    pub size: u64,
}

/// Whether a line asks for a shelf.
pub fn is_opening(line: &[u8]) -> bool
    ensures { result ≡ is_opening line.now }
{
    matches!(next_word(line).word, b"shelf")
}

/// The stack that a word names.
impl TryFrom<&[u8]> for Stack {
    type Error = LineFault;

    ghost try_from_gives = { λ word r. r ≡ ok_or (stack_of word.now) UnknownStack };

    fn try_from(word: &[u8]) -> Result<Stack, LineFault> {
        match word {
            b"memory" => Ok(Stack::Memory),
            b"buffer/memory" => Ok(Stack::BufferMemory),
            b"cutter/memory" => Ok(Stack::CutterMemory),
            b"buffer/cutter/memory" => Ok(Stack::BufferCutterMemory),
            b"cutter/buffer/memory" => Ok(Stack::CutterBufferMemory),
            _ => Err(LineFault::UnknownStack),
        }
    }
}

// The stack that the first word names, and what follows it.
fn read_stack(text: &[u8]) -> Result<(Stack, &[u8]), LineFault>
    ensures { behind result ≡ with_rest text.now (stack_in text.now) }
{
    let Split { word, rest } = first_word(text)?;
    Ok((Stack::try_from(word)?, rest))
}

// The number behind a name in a word.
fn setting_of(name: &[u8], word: &[u8]) -> Result<u64, LineFault>
    ensures { result ≡ setting_of name.now word.now }
{
    word.strip_prefix(name)
        .and_then(read_decimal)
        .ok_or(LineFault::BadSetting)
}

// The number behind a name in the first word, and what follows that.
fn read_setting<'a>(name: &[u8], text: &'a [u8]) -> Result<(u64, &'a [u8]), LineFault>
    ensures { behind result ≡ with_rest text.now (setting_in name.now text.now) }
{
    let Split { word, rest } = first_word(text)?;
    Ok((setting_of(name, word)?, rest))
}

// `STACK max=N size=N`.
fn read_settings(text: &[u8]) -> Result<Opening, LineFault>
    ensures { result ≡ opening_in text.now }
{
    let (stack, rest) = read_stack(text)?;
    let (max, rest) = read_setting(b"max=", rest)?;
    let (size, rest) = read_setting(b"size=", rest)?;
    no_word(rest)?;
    Ok(Opening { stack, max, size })
}

/// The shelf that a line asks for, or why it asks for none.
pub fn read_opening(line: &[u8]) -> Result<Opening, LineFault>
    ensures { result ≡ opening_of line.now }
{
    read_settings(next_word(line).rest)
}
