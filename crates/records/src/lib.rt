// "The cell table is a lent list of records": the oldest-ready and lowest-free scans over a lent slice of cell records. Each is thin: it
// lays the records out as words and hands these to the scan of `table`. A caller that holds a table by value takes `.._of`.
#![tactic(auto)]

ghost use Rattle.std.specs.Prelude.{◌≡◌, ◌<◌, ◌≤◌, take, length, Option, Ok, MatchResult};
ghost use Rattle.std.specs.Fn.{FnOnceReturnsAt};
ghost use Rattle.rules.specs.Cells.{most_records, words_of};
ghost use Rattle.rules.specs.Phases.{lowest_free, oldest_ready};
ghost use Rattle.records.specs.Records.{answered, lowest_free_of, oldest_ready_of, Laid, Scanned};

use rules::{Cell, Output};

// The words of as many records as a table may have.
const MOST_WORDS: usize = rules::MOST_RECORDS * rules::RECORD_WORDS;

// Why records are not scanned: the list has more of them than a table may.
#[derive(Clone, Copy, Debug, PartialEq, Eq)]
pub enum ScanError {
    TooManyRecords,
}

// The records, laid out as words.
#[tactic(auto, using(crate::specs::Layout::one_more, crate::specs::Layout::all_laid), unfolding(rules::specs::Cells::records))]
fn lay_out(cells: &[Cell]) -> [u32; MOST_WORDS]
    requires { length cells.now ≤ most_records }
    ensures { Laid cells.now result }
{
    let mut words = [0; MOST_WORDS];
    for (k, c) in cells.iter().enumerate() {
        table::put_cell(&mut words, k, *c);
    }
    words
}

// What a scan of words finds in the records, laid out.
fn scan<F: FnOnce(&[u32]) -> Option<usize>>(
    cells: &[Cell],
    find: F,
) -> Result<Option<usize>, ScanError>
    requires { F.IsAlwaysCallable find }
    ensures { Scanned (FnOnceReturnsAt F.FnOnce find) cells.now result }
{
    if rules::MOST_RECORDS < cells.len() {
        return Err(ScanError::TooManyRecords);
    }
    let words = lay_out(cells);
    Ok(find(&words[..cells.len() * rules::RECORD_WORDS]))
}

// The first n records of a table.
fn first_records(table: &[Cell; rules::MOST_RECORDS], n: usize) -> Result<&[Cell], ScanError>
    ensures { MatchResult result (λ cells. (n ≤ most_records) × (cells.now ≡ take n table.now)) (λ e. most_records < n) }
{
    table.get(..n).ok_or(ScanError::TooManyRecords)
}

// The lowest-numbered free record.
#[tactic(auto, using(crate::specs::Layout::scanned), unfolding(crate::specs::Records::lowest_free_of))]
pub fn lowest_free(cells: &[Cell]) -> Result<Option<usize>, ScanError>
    ensures { result ≡ lowest_free_of cells.now }
{
    scan(cells, table::lowest_free)
}

// Of the ready cells of an output, the first by slot and then input.
pub fn oldest_ready(cells: &[Cell], o: Output) -> Result<Option<usize>, ScanError>
    ensures { result ≡ oldest_ready_of cells.now o }
{
    scan(cells, |words| table::oldest_ready(words, o))
}

// The same of the first n records of a table by value: whoever calls these lends no slice of records.
#[tactic(auto, using(crate::specs::Layout::first_ones), unfolding(crate::specs::Records::lowest_free_of))]
pub fn lowest_free_of(
    table: [Cell; rules::MOST_RECORDS],
    n: usize,
) -> Result<Option<usize>, ScanError>
    ensures { result ≡ answered n (lowest_free (take n table)) }
{
    lowest_free(first_records(&table, n)?)
}

#[tactic(auto, using(crate::specs::Layout::first_ones), unfolding(crate::specs::Records::oldest_ready_of))]
pub fn oldest_ready_of(
    table: [Cell; rules::MOST_RECORDS],
    n: usize,
    o: Output,
) -> Result<Option<usize>, ScanError>
    ensures { result ≡ answered n (oldest_ready (take n table) o) }
{
    oldest_ready(first_records(&table, n)?, o)
}
