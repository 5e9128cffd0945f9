// The stretches of a table, so many records at a time that a number of one fits a byte, and which records of a stretch have some bits in their places.

ghost use Rattle.std.specs.Prelude.{◌≡◌, ℕ, ◌-◌, ◌<◌, ◌≤◌, [], length};
ghost use Rattle.rules.specs.Cells.{records};
ghost use Rattle.sift.specs.Lists.{Lists};
ghost use Rattle.sift.specs.Stretch.{BlockLacks, IsStretch, Words};

use crate::{BLOCK, BLOCKS, Numbers, STRETCH};

// The records from `start` on that stand before `end`, numbered from 0 on. That its words are of 32 bits is kept here, since a proof does not hear it
// of a table that is a part of something.
#[derive(Clone, Copy, Debug)]
pub struct Stretch<'a> {
    pub table: &'a [u32],
    pub start: usize,
    pub end: usize,
    ghost is_stretch: { IsStretch table.now start end },
    ghost words: { Words table.now },
}

impl<'a> Stretch<'a> {
    ghost use Rattle.sift.specs.Stretches.{size_of, blocks_of, ListedTo, BlocksListed};

    // How many records it has.
    pub fn size(self) -> usize
        ensures { result ≡ size_of self.entry }
    {
        self.end - self.start
    }

    // What the places of block b have of `bits`, all in one.
    #[tactic(auto, unfolding(rules::specs::Cells::records))]
    fn any_of_block(self, b: usize, bits: u32) -> u32
        requires { b < blocks_of self }
        ensures { result ≡ 0 → BlockLacks self.entry.table.now self.entry.start bits b }
    {
        let k = self.start + b * BLOCK;
        (0..BLOCK).fold(
            0,
            |any, j| any | self.table[(k + j) * rules::RECORD_WORDS] & bits,
        )
    }

    // Lists its blocks that stay. It is no call, so that the test of a block stands in the loop.
    #[inline(always)]
    pub fn blocks_where<F: Fn(usize) -> bool>(self, stays: F) -> Numbers<BLOCKS>
        requires { (b : ℕ) → b < blocks_of self → F.pre stays b }
        ensures { Lists (F.post stays) 0 (blocks_of self.entry) [] 0 result.list result.count }
    {
        let mut blocks = Numbers::none();
        blocks.list_from(0, self.size() / BLOCK, stays);
        blocks
    }

    // Lists the blocks in which some place has one of `bits`, in the list that is lent: one that is handed back is copied, and the copy waits for the
    // bytes that were written last.
    fn list_blocks(self, bits: u32, blocks: &mut Numbers<BLOCKS>)
        requires { blocks.old.count ≡ 0 }
        ensures { BlocksListed self.entry bits blocks.new.list blocks.new.count }
    {
        blocks.list_from(0, self.size() / BLOCK, |b| self.any_of_block(b, bits) != 0);
    }

    // Lists the records with one of `bits` from number `from` to number `to`, behind those below.
    #[tactic(auto, unfolding(rules::specs::Cells::records))]
    fn list_between(self, from: usize, to: usize, bits: u32, numbers: &mut Numbers<STRETCH>)
        requires from_le_to { (from ≤ to) × (to ≤ size_of self) }
        requires listed { ListedTo self from bits numbers.old.list numbers.old.count }
        ensures { ListedTo self.entry to bits numbers.new.list numbers.new.count }
    {
        numbers.list_from(
            from,
            to,
            |x| self.table[(self.start + x) * rules::RECORD_WORDS] & bits != 0,
        );
    }

    // Lists the records with one of `bits` in some blocks, and in what is left behind the last block. It is no call, so that the stretch stays in
    // registers.
    #[inline(always)]
    pub fn list_within(self, bits: u32, blocks: &[u8], numbers: &mut Numbers<STRETCH>)
        requires { BlocksListed self bits blocks.now (length blocks.now) }
        ensures { ListedTo self.entry (size_of self.entry) bits numbers.new.list numbers.new.count }
    {
        numbers.clear();
        for b in blocks {
            let from = usize::from(*b) * BLOCK;
            self.list_between(from, from + BLOCK, bits, numbers);
        }
        let size = self.size();
        self.list_between(size / BLOCK * BLOCK, size, bits, numbers);
    }

    // Lists the records with one of `bits`. It is no call, so that the bits are constants in it where its caller has them as such.
    #[inline(always)]
    pub fn list_with(self, bits: u32, numbers: &mut Numbers<STRETCH>)
        ensures { ListedTo self.entry (size_of self.entry) bits numbers.new.list numbers.new.count }
    {
        let mut blocks = Numbers::none();
        self.list_blocks(bits, &mut blocks);
        self.list_within(bits, blocks.as_slice(), numbers);
    }
}

// A table's stretches, one behind the other: the next one begins with record `next`.
#[derive(Clone, Copy, Debug)]
pub struct Stretches<'a> {
    table: &'a [u32],
    next: usize,
    ghost inside: { next ≤ records table.now },
    ghost words: { Words table.now },
}

impl<'a> Stretches<'a> {
    ghost use Rattle.sift.specs.Stretches.{From};

    // Those from record k on.
    pub(crate) fn from(table: &'a [u32], k: usize) -> Stretches<'a>
        requires { k ≤ records table.now }
        ensures { From table.now k result }
    {
        Stretches { table, next: k }
    }
}

impl<'a> Iterator for Stretches<'a> {
    ghost use Rattle.std.specs.Iterator.{at_most};
    ghost use Rattle.sift.specs.Stretches.{Walks};

    type Item = Stretch<'a>;

    ghost next_gives = { Walks };

    ghost remaining = { λ s. at_most (records s.table.now - s.next) };

    #[inline]
    #[tactic(auto, unfolding(rules::specs::Cells::records))]
    fn next(&mut self) -> Option<Stretch<'a>> {
        let n = self.table.len() / rules::RECORD_WORDS;
        if self.next == n {
            return None;
        }
        let stretch = Stretch {
            table: self.table,
            start: self.next,
            end: self.next + STRETCH.min(n - self.next),
        };
        self.next = stretch.end;
        Some(stretch)
    }
}
