//! The text side of a console: hexadecimal and decimal, read and written, whatever else is displayed, and the words of
//! a line.
//!
//! Everything is over bytes, so that any bytes whatever get an answer: what is no number is refused by `None`, a word
//! missing or left over by a `WordFault`, and nothing is asked of the caller. What a writer of numbers or of bytes
//! appends, the reader of the same module reads back.
#![tactic(auto)]

pub mod decimal;
pub mod hex;
pub mod shown;
pub mod word;

#[cfg(test)]
mod tests {
    use crate::decimal::{push_decimal, push_labelled, read_decimal};
    use crate::hex::{push_bytes, push_hex, read_bytes, read_hex};
    use crate::shown::{push_error, push_shown, write_shown};
    use crate::word::{WordFault, first_word, last_word, next_word, no_word};
    use std::test::Fail;

    #[test]
    fn hexadecimal(rt: HostRuntime) -> Result<(), Fail> {
        let read = read_hex(rt.alloc(), b"04444f574e")?.ok_or("five bytes")?;
        assert!(rt; read.as_slice() == b"\x04DOWN".as_slice());
        let mut out = Vec::new(rt.alloc());
        push_hex(&mut out, read.as_slice())?;
        assert!(rt; out.as_slice() == b"04444F574E".as_slice());
        assert!(rt; read_hex(rt.alloc(), b"044")?.is_none(), "an odd digit");
        assert!(rt; read_hex(rt.alloc(), b"0g")?.is_none(), "no digit");
        Ok(())
    }

    #[test]
    fn decimals(rt: HostRuntime) -> Result<(), Fail> {
        let mut out = Vec::new(rt.alloc());
        for n in [0, 7, 400, u64::MAX] {
            out.clear();
            push_decimal(&mut out, n)?;
            assert!(rt; read_decimal(out.as_slice()) == Some(n));
        }
        assert!(rt; out.as_slice() == b"18446744073709551615".as_slice());
        let refused: [&[u8]; 5] = [b"", b"00", b"07", b"+1", b"18446744073709551616"];
        for text in refused {
            assert!(rt; read_decimal(text).is_none());
        }
        Ok(())
    }

    #[test]
    fn a_word_of_bytes_and_a_label(rt: HostRuntime) -> Result<(), Fail> {
        let mut out = Vec::new(rt.alloc());
        push_bytes(&mut out, b"")?;
        push_labelled(&mut out, " of ", 7)?;
        assert!(rt; out.as_slice() == b"- of 7".as_slice());
        let none = read_bytes(rt.alloc(), b"-")?.ok_or("no bytes")?;
        assert!(rt; none.is_empty());
        let one = read_bytes(rt.alloc(), b"0a")?.ok_or("one byte")?;
        assert!(rt; one.as_slice() == b"\n".as_slice());
        Ok(())
    }

    #[test]
    fn words(rt: HostRuntime) {
        let first = next_word(b"  scan line\t01");
        assert!(rt; first.word == b"scan".as_slice() && first.rest == b" line\t01".as_slice());
        let second = next_word(first.rest);
        assert!(rt; second.word == b"line".as_slice() && second.rest == b"\t01".as_slice());
        let third = next_word(second.rest);
        assert!(rt; third.word == b"01".as_slice() && third.rest.is_empty());
        assert!(rt; next_word(b" \t").word.is_empty());
    }

    #[test]
    fn what_is_displayed(rt: HostRuntime) -> Result<(), Fail> {
        let mut out = Vec::new(rt.alloc());
        push_shown(&mut out, &"gate")?;
        push_shown(&mut out, &4)?;
        assert!(rt; out.as_slice() == b"gate4".as_slice());
        push_error(&mut out, &"no gate")?;
        assert!(rt; out.as_slice() == b"gate4error: no gate\n".as_slice());
        write_shown(&mut out, format_args!("gate {}\n", 4))?;
        assert!(rt; out.as_slice() == b"gate4error: no gate\ngate 4\n".as_slice());
        out.clear();
        push_shown(&mut out, &WordFault::Missing)?;
        push_shown(&mut out, &WordFault::Extra)?;
        assert!(rt; out.as_slice() == b"a word is missinga word too many".as_slice());
        Ok(())
    }

    #[test]
    fn words_that_belong_there(rt: HostRuntime) {
        for text in [b"".as_slice(), b" \t", b" # scan 01"] {
            assert!(rt; first_word(text) == Err(WordFault::Missing));
            assert!(rt; no_word(text) == Ok(()));
            assert!(rt; last_word(text) == Err(WordFault::Missing));
        }
        assert!(rt; first_word(b" cut 4 ") == Ok(next_word(b" cut 4 ")));
        assert!(rt; no_word(b" 4") == Err(WordFault::Extra));
        assert!(rt; last_word(b" 4 5") == Err(WordFault::Extra));
        assert!(rt; last_word(b" 4 #5") == Ok(b"4".as_slice()));
    }
}
