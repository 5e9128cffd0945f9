// Whether a table is fit, in one pass over its words. Three parts that know nothing of each other:
// - what a record must meet by itself, `is_sound`; of a free record, that nothing stands behind its place;
// - that no two live records have the same slot and the same input, `is_alone_by`: a live record is marked by the two, and where its mark is not
//   new, all records below are looked at;
// - the walk, stretch by stretch: blocks of free records are passed over, what stands behind the places of other free records is gathered in one
//   word, and the live records are listed, so that only they are looked at one by one.
#![tactic(auto)]

ghost use Rattle.std.specs.Prelude.{◌≡◌, not, ◌+◌, ◌-◌, ◌<◌, ◌≤◌, eqb};
ghost use Rattle.std.specs.List.{fold};
ghost use Rattle.std.specs.Int.Bits.{bit_or};
ghost use Rattle.laws.specs.Bits.{or_to};
ghost use Rattle.laws.specs.Sifted.{Sifted};
ghost use Rattle.rules.specs.Cells.{width, records, cells_of, same_entry, is_alone, fit};
ghost use Rattle.words.specs.Behind.{behind};
ghost use Rattle.sift.specs.Stretches.{blocks_of};
ghost use Rattle.fit_check.specs.Sound.{sound_by, is_stray, Strays};
ghost use Rattle.fit_check.specs.Blocks.{BlockFree};
ghost use Rattle.fit_check.specs.Marks.{Seen, Marked, Told};
ghost use Rattle.fit_check.specs.Walk.{Surveyed, FitSoFar, FitTo};

use ports::PortSet;
use rules::{Cell, Slot};
use sift::{BLOCK, BLOCKS, Numbers, STRETCH, Stretch};

// How many sets the marks have: slots with the same remainder share one.
const MARK_ROWS: u32 = 1_024;

// What a record is held against by itself.
#[derive(Clone, Copy)]
struct Bounds {
    ports: u32,
    next: Slot,
}

impl Bounds {
    // What a record must meet by itself.
    #[tactic(auto, using(crate::specs::Sound::or_blank), unfolding(rules::specs::Cells::is_sound, rules::specs::Cells::is_free))]
    fn is_sound(self, c: Cell) -> bool
        ensures { result ≡ sound_by self c }
    {
        if c.is_free() {
            return behind_place(c) == 0;
        }
        c.place <= rules::READY
            && c.input.0 < self.ports
            && c.output.0 < self.ports
            && c.entered < self.next
    }
}

// What stands behind the place of a record, all in one: 0 where each of these fields is.
fn behind_place(c: Cell) -> u32
    ensures { result ≡ or_to (behind c) (width - 1) }
{
    c.input.0 | c.output.0 | c.entered.0 | c.tag
}

// Both live, with the same slot and the same input. The slot differs most often, and is asked first.
#[tactic(auto, unfolding(rules::specs::Cells::same_entry, rules::specs::Cells::is_live, rules::specs::Cells::same_slot, rules::specs::Cells::same_input))]
fn is_same_entry(a: Cell, b: Cell) -> bool
    ensures { result ≡ same_entry a b }
{
    if a.entered != b.entered {
        return false;
    }
    !a.is_free() && !b.is_free() && a.input == b.input
}

// Record k has the same slot and input as no record below it, each looked at.
fn is_alone(table: &[u32], k: usize) -> bool
    requires { k < records table.now }
    ensures { result ≡ is_alone (cells_of table.now) k }
{
    let c = table::cell_at(table, k);
    !(0..k).any(|j| is_same_entry(c, table::cell_at(table, j)))
}

// Sets of inputs, one for the slots with the same remainder: a live cell is marked in its slot's by its input.
#[derive(Drop)]
struct Marks {
    sets: [PortSet; MARK_ROWS as usize],
}

impl Marks {
    // Marks a live cell; whether no cell was so marked before.
    fn mark(&mut self, c: Cell) -> bool
        ensures { Marked self.old.sets c result self.new.sets }
    {
        if c.is_free() {
            return true;
        }
        let at = (c.entered.0 % MARK_ROWS) as usize;
        let port = c.input.0 % rules::MOST_PORTS;
        let set = self.sets[at];
        self.sets[at] = set.with(port);
        !set.contains(port)
    }
}

// Whether record k has the same slot and input as no record below it, by their marks; the records are looked at only where its mark is not new.
// Record k is marked too.
fn is_alone_by(table: &[u32], k: usize, marks: &mut Marks) -> bool
    requires k_bound { k < records table.now }
    requires seen { Seen marks.old.sets (cells_of table.now) k }
    ensures { Told (cells_of table.now) k result marks.new.sets }
{
    marks.mark(table::cell_at(table, k)) || is_alone(table, k)
}

// The or of some words: 0 only where every word is.
fn or_of(words: &[u32]) -> u32
    ensures { result ≡ fold bit_or 0 words.now }
{
    words.iter().fold(0, |all, word| all | word)
}

// The or of the words of block b of a stretch: 0 only where its records are free.
fn or_of_block(stretch: Stretch<'_>, b: usize) -> u32
    requires { b < blocks_of stretch }
    ensures { result ≡ 0 → BlockFree stretch.entry.table.now stretch.entry.start b }
{
    let at = (stretch.start + b * BLOCK) * rules::RECORD_WORDS;
    or_of(&stretch.table[at..at + BLOCK * rules::RECORD_WORDS])
}

// Lists the blocks of a stretch in which some word is not 0. The records of the others are free and need no look.
fn touched_blocks(stretch: Stretch<'_>) -> Numbers<BLOCKS>
    ensures { Sifted (BlockFree stretch.entry.table.now stretch.entry.start) result.list result.count (blocks_of stretch.entry) }
{
    stretch.blocks_where(|b| or_of_block(stretch, b) != 0)
}

// What stands behind the place of a free record; 0 of a live one.
#[tactic(auto, using(crate::specs::Sound::live_stray, crate::specs::Sound::or_stray), unfolding(rules::specs::Cells::is_free))]
fn stray_of(c: Cell) -> u32
    ensures { not (eqb result 0) ≡ is_stray c }
{
    if c.is_free() { behind_place(c) } else { 0 }
}

// The same of the records from one to another.
fn strays_among(table: &[u32], from: usize, to: usize) -> u32
    requires { (from ≤ to) × (to ≤ records table.now) }
    ensures { Strays (cells_of table.now) from to result }
{
    (from..to).fold(0, |all, k| all | stray_of(table::cell_at(table, k)))
}

// The same of the records of a stretch of which the touched blocks are listed.
fn strays_within(stretch: Stretch<'_>, blocks: &Numbers<BLOCKS>) -> u32
    requires { Sifted (BlockFree stretch.table.now stretch.start) blocks.now.list blocks.now.count (blocks_of stretch) }
    ensures { Strays (cells_of stretch.entry.table.now) stretch.entry.start stretch.entry.end result }
{
    let mut all = 0;
    for b in blocks.as_slice() {
        let from = stretch.start + usize::from(*b) * BLOCK;
        all |= strays_among(stretch.table, from, from + BLOCK);
    }
    let behind = stretch.start + stretch.size() / BLOCK * BLOCK;
    all | strays_among(stretch.table, behind, stretch.end)
}

// Lists the live records of a stretch, and gives what stands behind the places of its free ones.
fn list_live(stretch: Stretch<'_>, live: &mut Numbers<STRETCH>) -> u32
    ensures { Surveyed stretch.entry.table.now stretch.entry.start stretch.entry.end live.new.list live.new.count result }
{
    let blocks = touched_blocks(stretch);
    stretch.list_within(sift::LIVE, blocks.as_slice(), live);
    strays_within(stretch, &blocks)
}

// Whether record k is sound and alone, as those below it are; it is marked if it is.
fn is_record_fit(table: &[u32], k: usize, bounds: Bounds, marks: &mut Marks) -> bool
    requires k_bound { k < records table.now }
    requires fit_so_far { FitSoFar (sound_by bounds) (cells_of table.now) marks.old.sets k }
    ensures { FitTo (sound_by bounds) (cells_of table.now) marks.new.sets (k + 1) result }
{
    bounds.is_sound(table::cell_at(table, k)) && is_alone_by(table, k, marks)
}

// Whether the records of a stretch are sound and alone, as those below it are; its live ones are marked.
fn is_stretch_fit(stretch: Stretch<'_>, bounds: Bounds, marks: &mut Marks) -> bool
    requires { FitSoFar (sound_by bounds) (cells_of stretch.table.now) marks.old.sets stretch.start }
    ensures { FitTo (sound_by bounds) (cells_of stretch.entry.table.now) marks.new.sets stretch.entry.end result }
{
    let mut live = Numbers::none();
    let strays = list_live(stretch, &mut live);
    if strays != 0 {
        return false;
    }
    for x in live.as_slice() {
        let k = stretch.start + usize::from(*x);
        if !is_record_fit(stretch.table, k, bounds, marks) {
            return false;
        }
    }
    true
}

// Whether the table is fit for slot t, in one pass.
pub fn is_fit(table: &[u32], ports: u32, t: Slot) -> bool
    ensures { result ≡ fit ports t (cells_of table.now) }
{
    let bounds = Bounds { ports, next: t };
    let mut marks = Marks {
        sets: [PortSet::default(); MARK_ROWS as usize],
    };
    for stretch in sift::stretches(table) {
        if !is_stretch_fit(stretch, bounds, &mut marks) {
            return false;
        }
    }
    true
}
