//! An iterator over the present pairs of an index.
ghost use Rattle.std.specs.Prelude.{◌≡◌};
ghost use Rattle.std.specs.Iterator.{YieldsFirst, item_count};
ghost use Rattle.sorted_index.specs.Marks.{pairs_in};

use crate::pair::Pair;
use crate::stored::Stored;
use std::marker::Model;

/// An iterator over the pairs of an index, in ascending order of id. Its model is the list of the remaining pairs.
///
/// A whole walk takes time proportional to the number of stored pairs.
#[derive(Drop)]
pub struct Walk<'a> {
    rest: &'a [Stored],
}

impl<'a> Model for Walk<'a> {
    ghost use Rattle.std.specs.Prelude.{List};
    ghost use Rattle.sorted_index.specs.declared.pair.Pair.{Pair};
    ghost use Rattle.sorted_index.specs.Marks.{pairs_in};

    ghost Value = { List Pair };

    ghost view = { λ w. pairs_in w.rest.now };
}

impl<'a> Walk<'a> {
    pub(crate) fn new(stored: &'a [Stored]) -> Self
        ensures { result ≡ pairs_in stored.now }
    {
        Walk { rest: stored }
    }
}

impl<'a> Iterator for Walk<'a> {
    type Item = Pair;

    ghost next_gives = { YieldsFirst (λ rest. rest) };

    ghost remaining = { item_count (λ rest. rest) };

    fn next(&mut self) -> Option<Pair> {
        while let [first, rest @ ..] = self.rest {
            self.rest = rest;
            if !first.is_gone {
                return Some(first.pair);
            }
        }
        None
    }
}
