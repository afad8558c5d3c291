//! The words of a line: runs of bytes with blanks between them, where a blank is a space or a tab.
//!
//! Kept true: blanks, then the word, then the rest are the whole text; no blank stands in the word; the rest is empty
//! or begins with a blank; and the word is empty only where the whole text is blanks.

ghost use Rattle.std.specs.Prelude.{◌≡◌, ◌≤◌, length, take, drop, IfOk, Some};
ghost use Rattle.text.specs.Words.{is_blank, without_blanks, up_to_blank, from_blank, word_of, after_word, SplitsWord, is_end, first_in, end_in, last_in, first_shown, shown, word_fault_text};
ghost use Rattle.std.specs.Str.{bytes_eq};

use std::fmt;

/// The blank that mostly stands between words.
const SPACE: u8 = b' ';

/// The other blank.
const TAB: u8 = b'\t';

/// The byte that a comment begins with.
const COMMENT: u8 = b'#';

/// A word of a text, and what follows it.
#[derive(Clone, Copy, Debug, PartialEq, Eq)]
pub struct Split<'a> {
    /// The word, with no blank in it. It is empty where the text has no word.
    pub word: &'a [u8],
    /// What follows the word: nothing, or a blank and more.
    pub rest: &'a [u8],
}

/// Why the words of a line are not those that belong there.
#[derive(Clone, Copy, PartialEq, Eq)]
pub enum WordFault {
    /// A word is missing.
    Missing,
    /// A word is left over.
    Extra,
}

impl WordFault {
    /// What is said of it. Each fault has its words, which printing may only fail to write.
    pub fn words(self) -> &'static str
        ensures { result.now ≡ word_fault_text self }
    {
        match self {
            WordFault::Missing => "a word is missing",
            WordFault::Extra => "a word too many",
        }
    }
}

impl fmt::Display for WordFault {
    ghost output = { λ e. Some (word_fault_text e) };

    fn fmt<W: fmt::Write>(&self, f: &mut fmt::Formatter<W>) -> fmt::Result {
        f.write_str(self.words())
    }
}

/// Whether the byte stands between words.
fn is_blank(byte: u8) -> bool
    ensures { result ≡ is_blank byte }
{
    matches!(byte, SPACE | TAB)
}

/// The text from its first byte that is no blank.
fn skip_blanks(text: &[u8]) -> &[u8]
    ensures { result.now ≡ without_blanks text.now }
{
    let start = text.iter().position(|byte| !is_blank(*byte));
    &text[start.unwrap_or(text.len())..]
}

/// How many bytes stand before the first blank.
fn word_len(text: &[u8]) -> usize
    ensures within { result ≤ length text.now }
    ensures word { take result text.now ≡ up_to_blank text.now }
    ensures rest { drop result text.now ≡ from_blank text.now }
{
    let end = text.iter().position(|byte| is_blank(*byte));
    end.unwrap_or(text.len())
}

/// The first word of the text, with the blanks in front of it passed over, and what follows it.
#[tactic(auto, using(crate::proofs::WordLaws::splits_as))]
pub fn next_word(text: &[u8]) -> Split<'_>
    ensures word { result.word.now ≡ word_of text.now }
    ensures rest { result.rest.now ≡ after_word text.now }
    ensures splits { SplitsWord text.now result.word.now result.rest.now }
{
    let body = skip_blanks(text);
    let (word, rest) = body.split_at(word_len(body));
    Split { word, rest }
}

/// Whether the words of a line end here: no word is left, or a comment begins.
pub fn is_end(word: &[u8]) -> bool
    ensures { result ≡ is_end word.now }
{
    matches!(word, [] | [COMMENT, ..])
}

/// The first word of the text, which must be there, and what follows it.
pub fn first_word(text: &[u8]) -> Result<Split<'_>, WordFault>
    ensures word { first_shown result ≡ first_in text.now }
    ensures rest { IfOk result (λ split. split.rest.now ≡ after_word text.now) }
{
    let split = next_word(text);
    if is_end(split.word) {
        Err(WordFault::Missing)
    } else {
        Ok(split)
    }
}

/// That no word is left in the text.
pub fn no_word(text: &[u8]) -> Result<(), WordFault>
    ensures { result ≡ end_in text.now }
{
    if is_end(next_word(text).word) {
        Ok(())
    } else {
        Err(WordFault::Extra)
    }
}

/// The one word that is left in the text.
pub fn last_word(text: &[u8]) -> Result<&[u8], WordFault>
    ensures { shown result ≡ last_in text.now }
{
    let split = first_word(text)?;
    no_word(split.rest)?;
    Ok(split.word)
}

/// Whether two words are the same.
// It is `==` with a name, public before and so still: a word that stands in the code is matched by a byte string.
pub fn is_word(word: &[u8], other: &[u8]) -> bool
    ensures { result ≡ bytes_eq word.now other.now }
{
    word == other
}
