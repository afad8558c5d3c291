//! A line of a script as an order to a shelf.
//!
//! Words are separated by spaces and tabs, and a word that begins with `#` begins a comment. Numbers are decimal.

ghost use Rattle.std.specs.Prelude.{◌≡◌, is_some, Some};
ghost use Rattle.text.specs.Words.{word_of};
ghost use Rattle.std.specs.Option.{ok_or};
ghost use Rattle.shelf_script.specs.declared.order.LineFault.TheVariants.{UnknownCommand, Word};
ghost use Rattle.shelf_script.specs.Orders.{behind, with_rest, number_in, one_in, one_or_none, verb_of, order_by, order_of, spelled, fault_text};

use std::fmt;
use text::decimal::read_decimal;
use text::word::{Split, WordFault, first_word, is_end, last_word, next_word, no_word};

/// What the first word of an order asks for.
#[derive(Clone, Copy)]
pub enum Verb {
    /// `make`
    Make,
    /// `add`
    Add,
    /// `cut`
    Cut,
    /// `remove`
    Remove,
    /// `sync`
    Sync,
    /// `fail`
    Fail,
    /// `restart`
    Restart,
    /// `print`
    Print,
}

/// An order to a shelf.
#[derive(Clone, Copy)]
pub enum Order<'a> {
    /// `make N`: puts an empty blob.
    Make {
        /// Its number.
        blob: u64,
    },
    /// `add N HEX`: appends bytes to a blob.
    Add {
        /// The blob's number.
        blob: u64,
        /// The bytes, as the line spells them.
        hex: &'a [u8],
    },
    /// `cut N LEN`: leaves the first bytes of a blob.
    Cut {
        /// The blob's number.
        blob: u64,
        /// How many bytes are left.
        len: u64,
    },
    /// `remove N`: takes a blob away.
    Remove {
        /// The blob's number.
        blob: u64,
    },
    /// `sync N`: makes the bytes of a blob safe.
    Sync {
        /// The blob's number.
        blob: u64,
    },
    /// `fail W [PART]`: the power is to fail over a write to come.
    Fail {
        /// Which write from now on, counted from 1; 0 for none.
        write: u64,
        /// How much of it is done then.
        part: u64,
    },
    /// `restart`: serves again after a power failure.
    Restart,
    /// `print`: shows the blobs.
    Print,
}

/// Why a line is no order.
#[derive(Clone, Copy, PartialEq, Eq)]
pub enum LineFault {
    /// Its first word names no command.
    UnknownCommand,
    /// It is an order, and no shelf is open.
    NoShelf,
    /// It names no stack of shelves.
    UnknownStack,
    /// Its words are not those that belong there.
    Word(WordFault),
    /// A word is not a decimal number below 2^64.
    BadNumber,
    /// A word is not the setting that belongs there.
    BadSetting,
    /// Bytes are not spelled by pairs of hexadecimal digits.
    BadHex,
}

impl LineFault {
    /// Why a line is no order, in words. Each fault has its words, which printing may only fail to write.
    pub fn words(self) -> &'static str
        ensures { result.now ≡ fault_text self }
    {
        match self {
            LineFault::UnknownCommand => "unknown command",
            LineFault::NoShelf => "no shelf is open",
            LineFault::UnknownStack => "unknown stack of shelves",
            LineFault::Word(fault) => fault.words(),
            LineFault::BadNumber => "not a decimal number below 2^64",
            LineFault::BadSetting => "not max=NUMBER size=NUMBER",
            LineFault::BadHex => "not pairs of hexadecimal digits",
        }
    }
}

impl fmt::Display for LineFault {
    ghost output = { λ e. Some (fault_text e) };

    fn fmt<W: fmt::Write>(&self, f: &mut fmt::Formatter<W>) -> fmt::Result {
        f.write_str(self.words())
    }
}

impl From<WordFault> for LineFault {
    ghost from_gives = { λ e r. r ≡ Word e };

    fn from(lower: WordFault) -> LineFault {
        LineFault::Word(lower)
    }
}

/// What a word asks for.
impl TryFrom<&[u8]> for Verb {
    type Error = LineFault;

    ghost try_from_gives = { λ word r. r ≡ ok_or (verb_of word.now) UnknownCommand };

    fn try_from(word: &[u8]) -> Result<Verb, LineFault> {
        match word {
            b"make" => Ok(Verb::Make),
            b"add" => Ok(Verb::Add),
            b"cut" => Ok(Verb::Cut),
            b"remove" => Ok(Verb::Remove),
            b"sync" => Ok(Verb::Sync),
            b"fail" => Ok(Verb::Fail),
            b"restart" => Ok(Verb::Restart),
            b"print" => Ok(Verb::Print),
            _ => Err(LineFault::UnknownCommand),
        }
    }
}

// The number that the first word writes, and what follows it.
fn read_number(text: &[u8]) -> Result<(u64, &[u8]), LineFault>
    ensures { behind result ≡ with_rest text.now (number_in text.now) }
{
    let Split { word, rest } = first_word(text)?;
    let number = read_decimal(word).ok_or(LineFault::BadNumber)?;
    Ok((number, rest))
}

// One number, and no more.
fn read_one(text: &[u8]) -> Result<u64, LineFault>
    ensures { result ≡ one_in text.now }
{
    let (number, rest) = read_number(text)?;
    no_word(rest)?;
    Ok(number)
}

// One number, or 0 where no word follows.
fn read_one_or_none(text: &[u8]) -> Result<u64, LineFault>
    ensures { result ≡ one_or_none text.now }
{
    if is_end(next_word(text).word) {
        return Ok(0);
    }
    read_one(text)
}

// An order, from the second word of its line on. A verb stays a value: whether a line is an order is asked of its first word alone.
fn read_rest(verb: Verb, text: &[u8]) -> Result<Order<'_>, LineFault>
    ensures { spelled result ≡ order_by verb text.now }
{
    match verb {
        Verb::Make => Ok(Order::Make {
            blob: read_one(text)?,
        }),
        Verb::Add => {
            let (blob, rest) = read_number(text)?;
            let hex = last_word(rest)?;
            Ok(Order::Add { blob, hex })
        }
        Verb::Cut => {
            let (blob, rest) = read_number(text)?;
            let len = read_one(rest)?;
            Ok(Order::Cut { blob, len })
        }
        Verb::Remove => Ok(Order::Remove {
            blob: read_one(text)?,
        }),
        Verb::Sync => Ok(Order::Sync {
            blob: read_one(text)?,
        }),
        Verb::Fail => {
            let (write, rest) = read_number(text)?;
            let part = read_one_or_none(rest)?;
            Ok(Order::Fail { write, part })
        }
        Verb::Restart => {
            no_word(text)?;
            Ok(Order::Restart)
        }
        Verb::Print => {
            no_word(text)?;
            Ok(Order::Print)
        }
    }
}

/// The order that a line is, or why it is none.
#[tactic(auto, unfolding(crate::specs::Orders::order_of))]
pub fn read_order(line: &[u8]) -> Result<Order<'_>, LineFault>
    ensures { spelled result ≡ order_of line.now }
{
    let Split { word, rest } = next_word(line);
    read_rest(Verb::try_from(word)?, rest)
}

/// Whether a line is an order to a shelf, by its first word.
pub fn is_order(line: &[u8]) -> bool
    ensures { result ≡ is_some (verb_of (word_of line.now)) }
{
    Verb::try_from(next_word(line).word).is_ok()
}
