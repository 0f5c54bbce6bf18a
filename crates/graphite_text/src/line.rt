//! The lines of a text, numbered from 1.
ghost use Rattle.std.specs.Prelude.{◌≡◌, ◌<◌, ◌≤◌, ◌∷◌, length};
ghost use Rattle.graphite_text.specs.Lines.{lines_of};
ghost use Rattle.graphite_text.specs.Reading.{text_limit};

use memchr::memchr;
use std::marker::Model;

/// A line of a text, without its line feed.
#[derive(Clone, Copy, Debug, PartialEq, Eq)]
pub struct Line<'a> {
    /// The line's number, counted from 1.
    pub number: u32,
    pub bytes: &'a [u8],
    /// Whether a line feed ends the line. Only the last line of a text may lack it.
    pub ended: bool,
}

/// The lines of a text in order, numbered from 1. Bytes after the last line feed are a line too.
#[derive(Drop)]
pub struct Lines<'a> {
    number: u32,
    rest: &'a [u8],
}

impl<'a> Model for Lines<'a> {
    ghost use Rattle.std.specs.Prelude.{◌+◌, ◌≤◌, length};
    ghost use Rattle.graphite_text.specs.Lines.{NumberedLines, lines_of};
    ghost use Rattle.graphite_text.specs.Reading.{text_limit};

    ghost Value = { NumberedLines };

    ghost view = { λ it. record { first = it.number; lines = lines_of it.rest.now } };

    ghost invariant = { λ it. it.number + length it.rest.now ≤ text_limit + 1 };
}

/// The first line of a text, whether a line feed ends it, and what comes after it.
fn first_line(text: &[u8]) -> (&[u8], bool, &[u8])
    requires { 0 < length text.now }
    ensures line { lines_of text.now
        ≡ record { bytes = result.0.now; ended = result.1 } ∷ lines_of result.2.now }
    ensures shorter { length result.2.now < length text.now }
{
    match memchr(b'\n', text) {
        Some(at) => (&text[..at], true, &text[at + 1..]),
        None => (text, false, &text[text.len()..]),
    }
}

impl<'a> Lines<'a> {
    /// The lines of a text of at most [`graphite_base::TEXT_LIMIT`] bytes. Takes no memory.
    pub fn new(text: &'a [u8]) -> Lines<'a>
        requires { length text.now ≤ text_limit }
        ensures { result ≡ record { first = 1; lines = lines_of text.now } }
    {
        Lines {
            number: 1,
            rest: text,
        }
    }
}

impl<'a> Iterator for Lines<'a> {
    ghost use Rattle.std.specs.Iterator.{item_count};
    ghost use Rattle.graphite_text.specs.Line.{TakesLine};

    type Item = Line<'a>;

    ghost next_gives = { TakesLine };

    ghost remaining = { item_count (λ left. left.lines) };

    fn next(&mut self) -> Option<Line<'a>> {
        if self.rest.is_empty() {
            return None;
        }
        let (bytes, ended, rest) = first_line(self.rest);
        let number = self.number;
        self.number += 1;
        self.rest = rest;
        Some(Line {
            number,
            bytes,
            ended,
        })
    }
}

/// How many lines a text of at most [`graphite_base::TEXT_LIMIT`] bytes has. Takes no memory.
pub fn line_count(text: &[u8]) -> u32
    requires { length text.now ≤ text_limit }
    ensures { result ≡ length (lines_of text.now) }
{
    let mut count = 0;
    for line in Lines::new(text) {
        count = line.number;
    }
    count
}
