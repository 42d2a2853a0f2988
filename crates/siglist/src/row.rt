//! A row of lists.
ghost use Rattle.std.specs.Prelude.{◌≡◌, ◌-◌, ◌≤◌, List, length};
ghost use Rattle.std.specs.Iterator.{YieldsFirst, item_count};
ghost use Rattle.siglist.specs.Steps.Reading.{row_of};
ghost use Rattle.siglist.specs.SignatureLists.{IsRow, Placed, placed_from};

use crate::list::{SignatureList, front};
use std::marker::Model;

/// The lists that bytes spell, borrowed. A contract sees those that are left, each with its offset.
#[derive(Debug, Drop)]
pub struct Lists<'a> {
    size: usize,
    rest: &'a [u8],
}

impl<'a> Model for Lists<'a> {
    ghost Value = { List Placed };

    ghost view = { λ l.
        placed_from (l.size - length l.rest.now) (row_of (length l.rest.now) l.rest.now) };

    ghost invariant = { λ l. (length l.rest.now ≤ l.size) × IsRow l.rest.now };
}

impl<'a> Iterator for Lists<'a> {
    type Item = SignatureList<'a>;

    ghost next_gives = { YieldsFirst (λ row. row) };

    ghost remaining = { item_count (λ row. row) };

    fn next(&mut self) -> Option<SignatureList<'a>> {
        if self.rest.is_empty() {
            return None;
        }
        let offset = self.size - self.rest.len();
        let (list, rest) = front(offset as u64, self.rest);
        self.rest = rest;
        Some(list)
    }
}

impl<'a> Lists<'a> {
    /// The lists of bytes that spell a row.
    pub(crate) fn of(bytes: &'a [u8]) -> Self
        requires { IsRow bytes.now }
        ensures { result ≡ placed_from 0 (row_of (length bytes.now) bytes.now) }
    {
        Lists {
            size: bytes.len(),
            rest: bytes,
        }
    }
}
