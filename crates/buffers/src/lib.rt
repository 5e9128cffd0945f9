// The buffers' two ends: the inhale, by which cells come into the input units, and the exhale, by which they leave the output units.
#![tactic(auto)]

ghost use Rattle.std.specs.Prelude.{◌≡◌, ◌+◌, ◌*◌, ◌≤◌, length};
ghost use Rattle.std.proofs.lemmas.List.Edits.{sets};
ghost use Rattle.rules.specs.Cells.{cells_of};
ghost use Rattle.rules.specs.Answers.{arrival_width, exhaled_width};
ghost use Rattle.rules.specs.Phases.{inhale, exhale, exhaled};
ghost use Rattle.words.specs.Words.{changed};
ghost use Rattle.table.specs.Table.{NoneBelow};
ghost use Rattle.buffers.specs.Inhale.{Entered};
ghost use Rattle.buffers.specs.Exhale.{entry_of, Emitted};

use rules::{ARRIVAL_WORDS, Cell, EXHALED_WORDS, Input, Output, Slot, WAITING};

// The cell that arrives at input i, if one does, takes the lowest-numbered free record: one from `from` on, none below being free.
// Gives a record from which the next one may look. Without room the table stays; such a slot is refused before.
#[tactic(auto, using(crate::specs::Inhale::room_inside), unfolding(rules::specs::Cells::records))]
fn enter(table: &mut [u32], arrivals: &[u32], i: Input, t: Slot, from: usize) -> usize
    requires none_below { NoneBelow table.old from }
    requires arrival_in_bounds { i.0 * arrival_width + arrival_width ≤ length arrivals.now }
    ensures { Entered t arrivals.now i table.old table.new result }
{
    let at = usize::from(i) * ARRIVAL_WORDS;
    let Some(output) = arrivals[at].checked_sub(1) else {
        return from;
    };
    let Some(k) = table::next_free(table, from) else {
        return from;
    };
    let c = Cell {
        place: WAITING,
        input: i,
        output: Output(output),
        entered: t,
        tag: arrivals[at + 1],
    };
    table::put_cell(table, k, c);
    k + 1
}

// By rising input each arriving cell takes the lowest-numbered free record. The table is passed once.
#[tactic(auto, using(crate::specs::Inhale::inhaling_none))]
pub fn inhale(table: &mut [u32], arrivals: &[u32], ports: u32, t: Slot)
    requires { ports * arrival_width ≤ length arrivals.now }
    ensures { table.new ≡ changed (inhale ports t arrivals.now) table.old }
{
    let mut from = 0;
    for i in 0..ports {
        from = enter(table, arrivals, Input(i), t, from);
    }
}

// The words of an exhaled entry: 1 and those of the cell that is emitted, or zeros.
fn entry_of(emitted: Option<Cell>) -> [u32; EXHALED_WORDS]
    ensures { result ≡ entry_of emitted }
{
    match emitted {
        Some(c) => [1, c.input.0, c.entered.0, c.tag],
        None => [0; EXHALED_WORDS],
    }
}

// Puts an entry into the list from word `at` on.
fn put_entry(list: &mut [u32], at: usize, emitted: Option<Cell>)
    requires { at + exhaled_width ≤ length list.old }
    ensures { list.new ≡ sets list.old at (entry_of emitted) }
{
    list[at..at + EXHALED_WORDS].copy_from_slice(&entry_of(emitted));
}

// Output o emits its oldest ready cell, whose record becomes free; or nothing, where its unit holds no cell.
#[tactic(auto, using(crate::specs::Exhale::found_inside, crate::specs::Exhale::emits_record))]
fn emit(table: &mut [u32], list: &mut [u32], o: Output)
    requires { o.0 * exhaled_width + exhaled_width ≤ length list.old }
    ensures { Emitted o table.old list.old table.new list.new }
{
    let at = usize::from(o) * EXHALED_WORDS;
    let Some(k) = table::oldest_ready(table, o) else {
        put_entry(list, at, None);
        return;
    };
    put_entry(list, at, Some(table::cell_at(table, k)));
    table::free_record(table, k);
}

// Each output emits, by rising output; what one emits changes nothing for another.
pub fn exhale(table: &mut [u32], list: &mut [u32], ports: u32)
    requires { length list.old ≡ ports * exhaled_width }
    ensures table_after { table.new ≡ changed (exhale ports) table.old }
    ensures list_after { list.new ≡ exhaled ports (cells_of table.old) }
{
    for o in 0..ports {
        emit(table, list, Output(o));
    }
}
