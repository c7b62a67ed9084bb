// The lanes of a set one after another, rising or falling.
ghost use Rattle.std.specs.Prelude.{◌≡◌};
ghost use Rattle.std.specs.Iterator.{at_most};
ghost use Rattle.lanes.specs.Lanes.{lowest_of, highest_of, count_of, Takes};

use super::{highest, lowest, without};
use std::marker::Model;

// The lanes of a set, from the first on. In a contract it is the set of those that are still to come.
#[derive(Drop)]
pub struct Iter {
    rest: [u64; 4],
}

impl Model for Iter {
    ghost use Rattle.std.specs.Prelude.{List, ℕ};

    ghost Value = { List ℕ };

    ghost view = { λ s. s.rest };
}

// The lanes that are set.
pub fn members(x: [u64; 4]) -> Iter
    ensures { result ≡ x }
{
    Iter { rest: x }
}

impl Iterator for Iter {
    type Item = usize;

    ghost next_gives = { Takes lowest_of };

    ghost remaining = { λ s. at_most (count_of s) };

    fn next(&mut self) -> Option<usize> {
        let v = lowest(self.rest);
        if v < 256 {
            self.rest = without(self.rest, v);
            return Some(v);
        }
        None
    }
}

impl DoubleEndedIterator for Iter {
    ghost next_back_gives = { Takes highest_of };

    fn next_back(&mut self) -> Option<usize> {
        let v = highest(self.rest);
        if v < 256 {
            self.rest = without(self.rest, v);
            return Some(v);
        }
        None
    }
}
