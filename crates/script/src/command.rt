//! A line of a script as a command.
//!
//! Words are separated by spaces and tabs. A word that begins with `#`, with all that follows it, is a
//! comment, and a line with no word before it is no command and no error.

ghost use Rattle.std.specs.Prelude.{◌≡◌, Some};
ghost use Rattle.script.specs.declared.command.ScriptFault.TheVariants.{Word};
ghost use Rattle.script.specs.Commands.{kind_named, spelled, scanned, fault_text, scan_command, command_of};

use std::fmt;
use text::word::{Split, WordFault, first_word, is_end, last_word, next_word};

/// The most bytes that a line may have.
pub const MAX_LINE: usize = 65536;

/// An item kind, as a script names it.
#[derive(Clone, Copy)]
pub enum KindName {
    /// `line`: spoken lines.
    Line,
    /// `event`: events of a gate.
    Event,
}

/// What a line asks for.
#[derive(Clone, Copy)]
pub enum Command<'a> {
    /// `scan KIND HEX`: the frames of a blob.
    Scan {
        /// What the frames hold.
        kind: KindName,
        /// The blob's bytes, as the line spells them.
        hex: &'a [u8],
    },
}

/// Why a line is no command.
#[derive(Clone, Copy)]
pub enum ScriptFault {
    /// It has more than 65,536 bytes.
    Overlong,
    /// Its first word names no command.
    UnknownCommand,
    /// Its second word names no item kind.
    UnknownKind,
    /// Its words are not those that belong there.
    Word(WordFault),
    /// Its bytes are not spelled by pairs of hexadecimal digits.
    BadHex,
}

impl ScriptFault {
    /// Why a line is no command, in words. Each fault has its words, which printing may only fail to write.
    pub fn words(self) -> &'static str
        ensures { result.now ≡ fault_text self }
    {
        match self {
            ScriptFault::Overlong => "the line is longer than 65536 bytes",
            ScriptFault::UnknownCommand => "unknown command",
            ScriptFault::UnknownKind => "unknown item kind, not line or event",
            ScriptFault::Word(fault) => fault.words(),
            ScriptFault::BadHex => "not pairs of hexadecimal digits",
        }
    }
}

impl fmt::Display for ScriptFault {
    ghost output = { λ e. Some (fault_text e) };

    fn fmt<W: fmt::Write>(&self, f: &mut fmt::Formatter<W>) -> fmt::Result {
        f.write_str(self.words())
    }
}

impl From<WordFault> for ScriptFault {
    ghost from_gives = { λ e r. r ≡ Word e };

    fn from(lower: WordFault) -> ScriptFault {
        ScriptFault::Word(lower)
    }
}

/// The item kind that a word names.
impl TryFrom<&[u8]> for KindName {
    type Error = ScriptFault;

    ghost try_from_gives = { λ word r. r ≡ kind_named word.now };

    fn try_from(word: &[u8]) -> Result<KindName, ScriptFault> {
        match word {
            b"line" => Ok(KindName::Line),
            b"event" => Ok(KindName::Event),
            _ => Err(ScriptFault::UnknownKind),
        }
    }
}

// `scan KIND HEX`, from its second word on.
fn read_scan(text: &[u8]) -> Result<Command<'_>, ScriptFault>
    ensures { scanned result ≡ scan_command text.now }
{
    let Split { word, rest } = first_word(text)?;
    let kind = KindName::try_from(word)?;
    let hex = last_word(rest)?;
    Ok(Command::Scan { kind, hex })
}

/// The command that a line is, or why it is none; `None` for a blank line or a comment.
pub fn read_command(line: &[u8]) -> Result<Option<Command<'_>>, ScriptFault>
    ensures { spelled result ≡ command_of line.now }
{
    if line.len() > MAX_LINE {
        return Err(ScriptFault::Overlong);
    }
    let Split { word, rest } = next_word(line);
    match word {
        b"scan" => Ok(Some(read_scan(rest)?)),
        _ if is_end(word) => Ok(None),
        _ => Err(ScriptFault::UnknownCommand),
    }
}
