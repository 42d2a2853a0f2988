//! The lines of a text.
ghost use Rattle.std.specs.Prelude.{◌≡◌, ◌<◌, ◌+◌, ◌==◌, ◌∷◌, ◌^◌, ℕ, List, length, position};
ghost use Rattle.std.specs.Iterator.{YieldsFirstBy, item_count};
ghost use Rattle.base.specs.Lines.{Numbered, line_of, lines_of, numbered_from};

use std::marker::Model;

/// The place of the first LF.
fn line_end(text: &[u8]) -> Option<usize>
    ensures { result ≡ position (λ b. b == 10) text.now }
{
    text.iter().position(|b| *b == b'\n')
}

/// The first line of a text that isn't empty, and the bytes after that line.
fn first_line(text: &[u8]) -> (&[u8], &[u8])
    requires { 0 < length text.now }
    ensures lines { (n : ℕ) → numbered_from n (lines_of text.now)
        ≡ numbered_from n (result.0.now ∷ lines_of result.1.now) }
    ensures shorter { length result.1.now < length text.now }
{
    match line_end(text) {
        None => (text, &[]),
        Some(0) => (&[], &text[1..]),
        Some(end) => {
            if text[end - 1] == b'\r' {
                (&text[..end - 1], &text[end + 1..])
            } else {
                (&text[..end], &text[end + 1..])
            }
        }
    }
}

/// A line with its number from 1. It has at least one byte.
#[derive(Clone, Copy, Debug)]
pub struct Line<'a> {
    pub number: u64,
    pub text: &'a [u8],
}

/// The numbered lines of a text, borrowed.
#[derive(Debug, Drop)]
pub struct Parted<'a> {
    rest: &'a [u8],
    number: u64,
}

impl<'a> Model for Parted<'a> {
    ghost Value = { List Numbered };

    ghost view = { λ p. numbered_from p.number (lines_of p.rest.now) };

    ghost invariant = { λ p. p.number + length p.rest.now < 2 ^ 64 };
}

impl<'a> Iterator for Parted<'a> {
    type Item = Line<'a>;

    ghost next_gives = { YieldsFirstBy line_of (λ lines. lines) };

    ghost remaining = { item_count (λ lines. lines) };

    fn next(&mut self) -> Option<Line<'a>> {
        while !self.rest.is_empty() {
            let number = self.number;
            let (text, rest) = first_line(self.rest);
            self.rest = rest;
            self.number = number + 1;
            if !text.is_empty() {
                return Some(Line { number, text });
            }
        }
        None
    }
}

impl<'a> Parted<'a> {
    /// The lines of a text, before the first is taken.
    pub(crate) fn of(text: &'a [u8]) -> Self
        ensures { result ≡ numbered_from 1 (lines_of text.now) }
    {
        Parted {
            rest: text,
            number: 1,
        }
    }
}
