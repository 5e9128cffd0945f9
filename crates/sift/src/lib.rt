// Which records of the table are waiting, ready or live, listed in one pass. No branch hangs on what stands in a record: one that goes either way
// costs more than a look at eight records. So each number is written behind the last one that stays, and stays or is written over by the next.
// A stretch of the table is looked at in two steps: which of its blocks have such a record at all, then which records of those blocks.
// Places are told by their bits; whoever asked looks at the records listed again.
#![tactic(auto)]

ghost use Rattle.sift.specs.Stretches.{From};
ghost use Rattle.sift.specs.Walk.{Starts};

mod numbers;
mod stretch;
mod walk;

pub use numbers::Numbers;
pub use stretch::{Stretch, Stretches};
pub use walk::Records;

// How many records are listed at a time, so that a number of one fits a byte; how many of them are looked at together; and how many such blocks a
// stretch has: `stretch_size`, `block` and `block_count` of specs/.
pub const STRETCH: usize = 256;

pub const BLOCK: usize = 8;

pub const BLOCKS: usize = STRETCH / BLOCK;

// The bits of the places: of waiting cells, of ready ones and of all live ones; `waiting_bit`, `ready_bit` and `live_bits` of specs/.
pub use rules::{READY, WAITING};

pub const LIVE: u32 = u32::MAX;

// The stretches of a table, one behind the other.
pub fn stretches(table: &[u32]) -> Stretches<'_>
    ensures { From table.now 0 result }
{
    Stretches::from(table, 0)
}

// The records with one of `bits`.
pub fn records_with(table: &[u32], bits: u32) -> Records<'_>
    ensures { Starts table.now bits result }
{
    Records::with_bits(table, bits)
}
