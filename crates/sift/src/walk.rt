// A walk over the records whose places have some of the bits that are asked for, by rising number.

ghost use Rattle.std.specs.Prelude.{◌≤◌, ◌-◌};
ghost use Rattle.rules.specs.Cells.{records};
ghost use Rattle.sift.specs.Stretch.{IsStretch, Listed, NextListed};

use crate::{Numbers, STRETCH, Stretches};
use std::ops::Range;

// The stretch at hand begins with record `from` and ends before record `end`; `turn` of the records that it lists were given.
#[derive(Clone, Copy, Debug)]
pub struct Records<'a> {
    table: &'a [u32],
    bits: u32,
    from: usize,
    end: usize,
    listed: Numbers<STRETCH>,
    turn: usize,
    ghost stretch: { IsStretch table.now from end },
    ghost are_listed: { Listed table.now from (end - from) bits listed.list listed.count },
    ghost turned: { turn ≤ listed.count },
}

impl<'a> Records<'a> {
    ghost use Rattle.sift.specs.Walk.{Starts, Sought};

    // The records with one of `bits`.
    pub fn with_bits(table: &'a [u32], bits: u32) -> Records<'a>
        ensures { Starts table.now bits result }
    {
        Records {
            table,
            bits,
            from: 0,
            end: 0,
            listed: Numbers::none(),
            turn: 0,
        }
    }

    // Whether a record is left, of the stretch at hand or of one behind it, which is the one at hand then. A table of one stretch is looked at once.
    #[inline(always)]
    #[tactic(auto, unfolding(rules::specs::Cells::records))]
    fn is_any_left(&mut self) -> bool
        ensures { Sought self.old result self.new }
    {
        if self.turn < self.listed.count {
            return true;
        }
        if self.end == self.table.len() / rules::RECORD_WORDS {
            return false;
        }
        let next = list_next(self.table, self.end, self.bits, &mut self.listed);
        self.from = next.start;
        self.end = next.end;
        self.turn = 0;
        self.listed.count != 0
    }
}

// Lists the next stretch from record k on that has a record with one of `bits`, and gives where it begins and ends; where none has, that is behind the
// last record. It stays a call, so that a turn of the walk is short code.
#[inline(never)]
#[tactic(auto, unfolding(rules::specs::Cells::records))]
fn list_next(table: &[u32], k: usize, bits: u32, listed: &mut Numbers<STRETCH>) -> Range<usize>
    requires { k ≤ records table.now }
    ensures { NextListed table.now k bits result.start result.end listed.new.list listed.new.count }
{
    listed.clear();
    for stretch in Stretches::from(table, k) {
        stretch.list_with(bits, listed);
        if listed.count != 0 {
            return stretch.start..stretch.end;
        }
    }
    let n = table.len() / rules::RECORD_WORDS;
    n..n
}

impl<'a> Iterator for Records<'a> {
    ghost use Rattle.std.specs.Iterator.{at_most};
    ghost use Rattle.sift.specs.Walk.{Walks, reached};

    type Item = usize;

    ghost next_gives = { Walks };

    ghost remaining = { λ s. at_most (records s.table.now - reached s) };

    #[inline(always)]
    fn next(&mut self) -> Option<usize> {
        if !self.is_any_left() {
            return None;
        }
        let k = self.from + usize::from(self.listed.list[self.turn]);
        self.turn += 1;
        Some(k)
    }
}
