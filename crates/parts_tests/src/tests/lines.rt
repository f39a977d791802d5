//! Lines, words and numbers of texts.

use crate::tests::comparing::{fails_at, holds};
use std::alloc::Global;
use std::test::Fail;
use text_lines::{
    behind, first_line, integer_of, natural_of, number_of, numbers_are_read_as_printed, parted,
    words_of,
};

fn are(found: Option<(&[u8], &[u8])>, wanted: Option<(&str, &str)>) -> bool {
    match (found, wanted) {
        (Some((left, right)), Some((before, behind))) => {
            left == before.as_bytes() && right == behind.as_bytes()
        }
        (None, None) => true,
        _ => false,
    }
}

fn is_rest(found: Option<&[u8]>, wanted: Option<&str>) -> bool {
    match (found, wanted) {
        (Some(rest), Some(text)) => rest == text.as_bytes(),
        (None, None) => true,
        _ => false,
    }
}

/// What is read of a text, and in which way.
enum Reading {
    /// The first line and what follows it.
    FirstLine(Option<(&'static str, &'static str)>),
    /// What stands before and behind a colon.
    Parted(Option<(&'static str, &'static str)>),
    /// What stands behind `rows `.
    Behind(Option<&'static str>),
    /// The whole number that the text is printed of.
    Integer(Option<i128>),
    /// The number of at most 7 that the text is printed of.
    Natural(Option<u128>),
    /// The number of at most 1000 that the digits write.
    Digits(Option<u128>),
}

fn is_read(text: &[u8], reading: &Reading) -> bool {
    match reading {
        Reading::FirstLine(parts) => are(first_line(text), *parts),
        Reading::Parted(parts) => are(parted(b':', text), *parts),
        Reading::Behind(rest) => is_rest(behind(b"rows ", text), *rest),
        Reading::Integer(number) => {
            integer_of(text, 170141183460469231731687303715884105727) == *number
        }
        Reading::Natural(number) => natural_of(text, 7) == *number,
        Reading::Digits(number) => number_of(text, 1000) == *number,
    }
}

/// Ways of reading, texts, and what is read of each.
static READINGS: [(&str, &str, Reading); 30] = [
    (
        "the first line",
        "a b\nc\n",
        Reading::FirstLine(Some(("a b", "c\n"))),
    ),
    ("the first line", "\n", Reading::FirstLine(Some(("", "")))),
    ("the first line", "a", Reading::FirstLine(None)),
    (
        "parted at a colon",
        "1:2:3",
        Reading::Parted(Some(("1", "2:3"))),
    ),
    ("parted at a colon", "1 2", Reading::Parted(None)),
    ("behind a word", "rows 7", Reading::Behind(Some("7"))),
    ("behind a word", "row", Reading::Behind(None)),
    ("an integer", "0", Reading::Integer(Some(0))),
    ("an integer", "10", Reading::Integer(Some(10))),
    ("an integer", "-7", Reading::Integer(Some(-7))),
    (
        "an integer",
        "170141183460469231731687303715884105727",
        Reading::Integer(Some(i128::MAX)),
    ),
    (
        "an integer",
        "-170141183460469231731687303715884105727",
        Reading::Integer(Some(-i128::MAX)),
    ),
    (
        "an integer",
        "170141183460469231731687303715884105728",
        Reading::Integer(None),
    ),
    (
        "an integer",
        "999999999999999999999999999999999999999999",
        Reading::Integer(None),
    ),
    ("an integer", "", Reading::Integer(None)),
    ("an integer", "-", Reading::Integer(None)),
    ("an integer", "-0", Reading::Integer(None)),
    ("an integer", "00", Reading::Integer(None)),
    ("an integer", "07", Reading::Integer(None)),
    ("an integer", "+7", Reading::Integer(None)),
    ("an integer", "7 ", Reading::Integer(None)),
    ("a natural of at most 7", "7", Reading::Natural(Some(7))),
    ("a natural of at most 7", "8", Reading::Natural(None)),
    ("digits of at most 1000", "0", Reading::Digits(Some(0))),
    ("digits of at most 1000", "007", Reading::Digits(Some(7))),
    (
        "digits of at most 1000",
        "1000",
        Reading::Digits(Some(1000)),
    ),
    ("digits of at most 1000", "1001", Reading::Digits(None)),
    ("digits of at most 1000", "", Reading::Digits(None)),
    ("digits of at most 1000", "+7", Reading::Digits(None)),
    ("digits of at most 1000", "7x", Reading::Digits(None)),
];

#[test]
fn reads_lines_and_numbers() -> Result<(), Fail> {
    numbers_are_read_as_printed();
    for (name, text, reading) in &READINGS {
        if !is_read(text.as_bytes(), reading) {
            return fails_at(&(name, text));
        }
    }
    Ok(())
}

/// A line, how many words it has, and the last one.
type WordsRow = (&'static str, usize, &'static str);

static WORDS: [WordsRow; 5] = [
    ("slot 1 0:1", 3, "0:1"),
    ("", 1, ""),
    (" a", 2, "a"),
    ("a ", 2, ""),
    ("a  b", 3, "b"),
];

fn has_words(words: &[&[u8]], count: usize, end: &str) -> bool {
    match words.last() {
        Some(last) => words.len() == count && *last == end.as_bytes(),
        None => false,
    }
}

fn reads_row(alloc: Global, row: &WordsRow) -> Result<(), Fail> {
    holds(
        has_words(words_of(alloc, row.0.as_bytes())?.as_slice(), row.1, row.2),
        row.0,
    )
}

#[test]
fn reads_words(rt: HostRuntime) -> Result<(), Fail> {
    for row in &WORDS {
        reads_row(rt.alloc(), row)?;
    }
    Ok(())
}
