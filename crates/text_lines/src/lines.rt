//! Lines.

ghost use Rattle.std.specs.Prelude.{◌≡◌, MatchOption, IfOk, None, Some, map};
ghost use Rattle.text_lines.specs.Lines.{parted, first_line, words_of, behind};

use listed::{Listed, NoMemory};
use std::alloc::Global;

/// What stands before the first byte of a value in a text, and what stands behind it. `None` where no such byte comes.
pub fn parted(by: u8, text: &[u8]) -> Option<(&[u8], &[u8])>
    ensures { MatchOption result (parted by text.now ≡ None) (λ parts. parted by text.now ≡ Some (parts.0.now, parts.1.now)) }
{
    for at in 0..text.len() {
        if text[at] == by {
            return Some((&text[..at], &text[at + 1..]));
        }
    }
    None
}

/// The first line of a text, without the line feed that ends it, and what stands behind it. `None` where no line feed comes.
pub fn first_line(bytes: &[u8]) -> Option<(&[u8], &[u8])>
    ensures { MatchOption result (first_line bytes.now ≡ None) (λ parts. first_line bytes.now ≡ Some (parts.0.now, parts.1.now)) }
{
    parted(b'\n', bytes)
}

/// The words of a line, which are separated by one space each: there is one more than there are spaces.
pub fn words_of(alloc: Global, text: &[u8]) -> Result<Listed<&[u8]>, NoMemory>
    ensures { IfOk result (λ words. map (λ word. word.now) words ≡ words_of text.now) }
{
    let mut words = Listed::new(alloc);
    let mut rest = text;
    while let Some((word, left)) = parted(b' ', rest) {
        words.push(word)?;
        rest = left;
    }
    words.push(rest)?;
    Ok(words)
}

/// What stands behind a word. `None` where the text doesn't begin with it.
pub fn behind<'a>(word: &[u8], text: &'a [u8]) -> Option<&'a [u8]>
    ensures { MatchOption result (behind word.now text.now ≡ None) (λ rest. behind word.now text.now ≡ Some rest.now) }
{
    text.strip_prefix(word)
}
