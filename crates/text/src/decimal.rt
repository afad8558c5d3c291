//! Numbers as decimal text.
//!
//! Kept true: a number has one text, the one that `push_decimal` appends, and `read_decimal` reads just the texts that
//! it appends. So no sign, no zero in front of other digits and no number of 2^64 or more is read.

ghost use Rattle.std.specs.Prelude.{◌≡◌, ◌++◌, decimal, OnOk};
ghost use Rattle.text.specs.Decimal.{is_padded, ReadsDecimal, number_of, labelled};
ghost use Rattle.text.specs.Grown.{Grown};

use crate::shown::{push_shown, write_shown};
use std::alloc::AllocError;
use std::str::from_utf8;

/// Appends the decimal digits of the number, with no zero in front but for 0 itself.
///
/// Where memory runs out, `out` holds what it held and some of the digits.
pub fn push_decimal(out: &mut Vec<u8>, n: u64) -> Result<(), AllocError>
    ensures writes { OnOk result (out.new.items ≡ out.old.items ++ decimal n) }
    ensures keeps { Grown out.old.items out.new.items }
{
    push_shown(out, &n)
}

/// Whether the text has in front what `parse` would pass over: a sign, or a zero before more digits.
fn is_padded(text: &[u8]) -> bool
    ensures { result ≡ is_padded text.now }
{
    matches!(text, [b'+', ..] | [b'0', _, ..])
}

/// The number whose decimal digits the text is, just as `push_decimal` appends them; `None` for any other text.
pub fn read_decimal(text: &[u8]) -> Option<u64>
    ensures reads { ReadsDecimal text.now result }
    ensures value { result ≡ number_of text.now }
{
    if is_padded(text) {
        return None;
    }
    from_utf8(text).ok()?.parse().ok()
}

/// Appends a text, and a number behind it.
pub fn push_labelled(out: &mut Vec<u8>, label: &str, n: u64) -> Result<(), AllocError>
    ensures { OnOk result (out.new.items ≡ out.old.items ++ labelled label.now n) }
{
    write_shown(out, format_args!("{label}{n}"))
}
