//! Bytes as hexadecimal text, two digits for each byte, the high one first.
//!
//! Kept true: what `push_hex` appends, `read_hex` reads as the same bytes; and a text that `read_hex` reads is, but for
//! the case of its letters, what `push_hex` appends of the answer. So bytes have one text, but for that case.

ghost use Rattle.std.specs.Prelude.{◌≡◌, ◌<◌, ◌++◌, IfOk, vec_items, OnOk};
ghost use Rattle.std.specs.Option.{option_map};
ghost use Rattle.text.specs.Grown.{Grown};
ghost use Rattle.text.specs.Hex.{hex_digit, hex_of, hex_value, bytes_of, HexReadsBack, HexHasOneForm, bytes_in, bytes_text};

use crate::word::is_word;
use std::alloc::{AllocError, Global};

/// The word that stands for no bytes.
const NO_BYTES: &[u8] = b"-";

/// How many values a digit has.
const BASE: u8 = 16;

/// The value of the first digit that is a letter.
const LETTERS: u8 = 10;

/// The upper-case digit of a value below 16.
fn hex_digit(value: u8) -> u8
    requires { value < 16 }
    ensures { result ≡ hex_digit value }
{
    if value < LETTERS {
        b'0' + value
    } else {
        b'A' + (value - LETTERS)
    }
}

/// The value of a digit of either case.
fn hex_value(digit: u8) -> Option<u8>
    ensures { result ≡ hex_value digit }
{
    let value = char::from(digit).to_digit(16)?;
    Some(value as u8)
}

/// Appends two upper-case digits for each of the bytes.
///
/// Where memory runs out, `out` holds what it held and the digits of some of the bytes.
#[tactic(auto, using(crate::proofs::HexLaws::bytes_read_back))]
pub fn push_hex(out: &mut Vec<u8>, bytes: &[u8]) -> Result<(), AllocError>
    ensures writes { OnOk result (out.new.items ≡ out.old.items ++ hex_of bytes.now) }
    ensures keeps { Grown out.old.items out.new.items }
    ensures reads_back { HexReadsBack bytes.now }
{
    // A format for each byte would take longer, and its text would be held beside `out` until the end.
    for byte in bytes {
        let digits = [hex_digit(*byte / BASE), hex_digit(*byte % BASE)];
        out.extend_from_slice(&digits)?;
    }
    Ok(())
}

/// The bytes that the text writes, two digits of either case for each; `None` where it holds another byte, or an odd
/// number of digits.
pub fn read_hex(heap: Global, text: &[u8]) -> Result<Option<Vec<u8>>, AllocError>
    ensures reads { IfOk result (λ o. option_map vec_items o ≡ bytes_of text.now) }
    ensures one_form { IfOk result (λ o. HexHasOneForm text.now (option_map vec_items o)) }
{
    let mut bytes = Vec::new(heap);
    // A pattern takes two digits off the front and leaves the rest; pairs by place would need the odd digit besides.
    let mut rest = text;
    while let [high, low, tail @ ..] = rest {
        let (Some(high), Some(low)) = (hex_value(*high), hex_value(*low)) else {
            return Ok(None);
        };
        bytes.push(high * BASE + low)?;
        rest = tail;
    }
    Ok(rest.is_empty().then_some(bytes))
}

/// The bytes that a word spells: `-` for none, else pairs of digits of either case; `None` for any other word.
pub fn read_bytes(heap: Global, word: &[u8]) -> Result<Option<Vec<u8>>, AllocError>
    ensures { IfOk result (λ o. option_map vec_items o ≡ bytes_in word.now) }
{
    if is_word(word, NO_BYTES) {
        return Ok(Some(Vec::new(heap)));
    }
    read_hex(heap, word)
}

/// Appends the word that spells the bytes: `-` for none.
pub fn push_bytes(out: &mut Vec<u8>, bytes: &[u8]) -> Result<(), AllocError>
    ensures { OnOk result (out.new.items ≡ out.old.items ++ bytes_text bytes.now) }
{
    if bytes.is_empty() {
        out.extend_from_slice(NO_BYTES)?;
        return Ok(());
    }
    push_hex(out, bytes)
}
