// The cell table as it is lent, in flat words: what stands in a record, how it is changed, and what the scans find.
// Only `record_count`, `is_whole`, `cell_at`, `put_cell` and `set_place` know of words. The reading and the scan of the exhale look at no record but
// the ready ones, which `sift` lists.
#![tactic(auto)]

ghost use Rattle.std.specs.Prelude.{◌≡◌, ◌%◌, ◌<◌, ◌≤◌, get_or};
ghost use Rattle.laws.specs.Least.{Below};
ghost use Rattle.laws.specs.Count.{bit};
ghost use Rattle.laws.specs.First.{first_found};
ghost use Rattle.rules.specs.Cells.{most_ports, most_records, free, placed, nth, records, is_whole, cells_of};
ghost use Rattle.rules.specs.Answers.{live};
ghost use Rattle.rules.specs.Phases.{lowest_free, readings, oldest_ready};
ghost use Rattle.table.specs.Table.{stored, NoneBelow, older_at};
ghost use Rattle.table.specs.Reading.{bumped, is_counted, older_ready, OldestFound};

use rules::{Cell, Input, Output, Slot};
use sift::{Numbers, STRETCH, Stretch};

// How many whole records the words are.
#[tactic(auto, unfolding(rules::specs::Cells::records))]
pub fn record_count(table: &[u32]) -> usize
    ensures { result ≡ records table.now }
{
    table.len() / rules::RECORD_WORDS
}

// Whether the words are whole records.
#[tactic(auto, unfolding(rules::specs::Cells::is_whole))]
pub fn is_whole(table: &[u32]) -> bool
    ensures { result ≡ is_whole table.now }
{
    table.len() % rules::RECORD_WORDS == 0
}

// Record k.
#[tactic(auto, unfolding(rules::specs::Cells::records))]
pub fn cell_at(table: &[u32], k: usize) -> Cell
    requires { k < records table.now }
    ensures { result ≡ nth (cells_of table.now) k }
{
    let at = k * rules::RECORD_WORDS;
    Cell {
        place: table[at],
        input: Input(table[at + 1]),
        output: Output(table[at + 2]),
        entered: Slot(table[at + 3]),
        tag: table[at + 4],
    }
}

// Record k becomes the cell c. Word by word: a copy of the fields as one slice is first laid on the stack, and takes twice the time.
#[tactic(auto, unfolding(rules::specs::Cells::records))]
pub fn put_cell(table: &mut [u32], k: usize, c: Cell)
    requires { k < records table.old }
    ensures { table.new ≡ stored table.old k c }
{
    let at = k * rules::RECORD_WORDS;
    table[at] = c.place;
    table[at + 1] = c.input.0;
    table[at + 2] = c.output.0;
    table[at + 3] = c.entered.0;
    table[at + 4] = c.tag;
}

// Record k gets another place; its other fields stay.
#[tactic(auto, using(words::proofs::Words::place_with), unfolding(rules::specs::Cells::records))]
pub fn set_place(table: &mut [u32], k: usize, place: u32)
    requires { k < records table.old }
    ensures { table.new ≡ stored table.old k (placed place (nth (cells_of table.old) k)) }
{
    table[k * rules::RECORD_WORDS] = place;
}

// Record k becomes free, all zeros.
pub fn free_record(table: &mut [u32], k: usize)
    requires { k < records table.old }
    ensures { table.new ≡ stored table.old k free }
{
    put_cell(table, k, Cell::default());
}

// Of two findings the one with the older cell; the lower-numbered where neither is older.
pub fn older_finding(table: &[u32], a: Option<usize>, b: Option<usize>) -> Option<usize>
    requires a_below { Below (records table.now) a }
    requires b_below { Below (records table.now) b }
    ensures { result ≡ first_found (older_at (cells_of table.now)) a b }
{
    let (Some(j), Some(k)) = (a, b) else {
        return a.or(b);
    };
    let c = cell_at(table, j);
    let d = cell_at(table, k);
    if d.is_older_than(c) {
        return Some(k);
    }
    if c.is_older_than(d) {
        return Some(j);
    }
    Some(j.min(k))
}

// The lowest-numbered free record, looked for from a record on below which none is free.
#[tactic(auto, using(crate::specs::Table::none_below_more, crate::specs::Table::first_free, crate::specs::Table::none_free))]
pub fn next_free(table: &[u32], from: usize) -> Option<usize>
    requires { NoneBelow table.now from }
    ensures { result ≡ lowest_free (cells_of table.now) }
{
    for k in from..record_count(table) {
        if cell_at(table, k).is_free() {
            return Some(k);
        }
    }
    None
}

// The lowest-numbered free record.
pub fn lowest_free(table: &[u32]) -> Option<usize>
    ensures { result ≡ lowest_free (cells_of table.now) }
{
    next_free(table, 0)
}

// One turn of `oldest_ready`: what was found below record k, or record k.
fn older_of(table: &[u32], o: Output, found: Option<usize>, k: usize) -> Option<usize>
    requires k_bound { k < records table.now }
    requires below { Below k found }
    ensures { result ≡ older_ready (cells_of table.now) o found k }
{
    let c = cell_at(table, k);
    if !c.is_ready_for(o) {
        return found;
    }
    match found {
        Some(j) if !c.is_older_than(cell_at(table, j)) => found,
        _ => Some(k),
    }
}

// What was found below a stretch, or one of its ready cells.
#[inline(always)]
fn oldest_within(
    stretch: Stretch<'_>,
    listed: &mut Numbers<STRETCH>,
    o: Output,
    below: Option<usize>,
) -> Option<usize>
    requires { OldestFound stretch.table.now o below stretch.start }
    ensures { OldestFound stretch.entry.table.now o result stretch.entry.end }
{
    stretch.list_with(sift::READY, listed);
    let mut found = below;
    for x in listed.as_slice() {
        found = older_of(stretch.table, o, found, stretch.start + usize::from(*x));
    }
    found
}

// Of the ready cells of an output, the first by slot and then input. A slot asks that of each output, so the stretches are passed here and not by
// `records_with`: its walk is made anew for each.
pub fn oldest_ready(table: &[u32], o: Output) -> Option<usize>
    ensures { result ≡ oldest_ready (cells_of table.now) o }
{
    let mut listed = Numbers::none();
    let mut found = None;
    for stretch in sift::stretches(table) {
        found = oldest_within(stretch, &mut listed, o, found);
    }
    found
}

// How many records are live.
#[tactic(auto, using(crate::specs::Table::live_none, crate::specs::Table::live_more, crate::specs::Table::live_fits, crate::specs::Table::live_all))]
pub fn live(table: &[u32]) -> usize
    ensures { result ≡ live (cells_of table.now) }
{
    let mut cells = 0;
    for k in 0..record_count(table) {
        cells += usize::from(!cell_at(table, k).is_free());
    }
    cells
}

// "The counts are read once, kept together for the slot": how many ready cells each output has.
#[derive(Clone, Copy, Debug, PartialEq, Eq)]
pub struct Reading {
    pub counts: [u32; rules::PORT_COUNT],
}

// 1 for a cell that is ready for some output, otherwise 0.
#[tactic(auto, unfolding(crate::specs::Reading::is_counted))]
fn one_if_counted(c: Cell) -> u32
    ensures { result ≡ bit (is_counted c) }
{
    u32::from(c.is_ready() && c.output.0 < rules::MOST_PORTS)
}

impl Reading {
    // One more for the cell's output, where the cell is ready.
    #[tactic(auto, using(crate::specs::Reading::bump_one))]
    fn bump(&mut self, c: Cell)
        requires { get_or self.old.counts (c.output.0 % most_ports) 0 < most_records }
        ensures { self.new.counts ≡ bumped self.old.counts c }
    {
        let at = (c.output.0 % rules::MOST_PORTS) as usize;
        self.counts[at] += one_if_counted(c);
    }
}

// The reading, in one pass over the ready records.
pub fn read(table: &[u32]) -> Reading
    requires { records table.now ≤ most_records }
    ensures { result.counts ≡ readings (cells_of table.now) }
{
    let mut reading = Reading {
        counts: [0; rules::PORT_COUNT],
    };
    for k in sift::records_with(table, sift::READY) {
        reading.bump(cell_at(table, k));
    }
    reading
}
