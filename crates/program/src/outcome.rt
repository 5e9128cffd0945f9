// What a slot prints.

ghost use Rattle.std.specs.Prelude.{◌+◌, ◌*◌, ◌≤◌, length};
ghost use Rattle.rules.specs.Cells.{most_ports};
ghost use Rattle.rules.specs.Answers.{exhaled_width};
ghost use Rattle.printing.specs.Printed.{line_bytes};
ghost use Rattle.printing.specs.Prints.{Put};
ghost use Rattle.program.specs.Program.{cell_text, slot_text, answer_text};
ghost use Rattle.program.specs.Lent.{end_room};

use printing::Page;
use rules::{EXHALED_WORDS, Refusal, Switch};

// The cells that a slot emitted, or that it was refused.
#[tactic(auto, using(printing::specs::Prints::put_within, crate::specs::Answered::refused_text, crate::specs::Answered::done_text))]
pub(crate) fn put_outcome(
    answer: Result<(), Refusal>,
    numbers: Switch,
    exhaled: &[u32],
    out: &mut Page<'_>,
)
    requires entries { (numbers.ports ≤ most_ports) × (numbers.ports * exhaled_width ≤ length exhaled.now) }
    requires room { out.old.count + end_room ≤ length out.old.bytes.now }
    ensures { Put end_room out.old (answer_text numbers answer exhaled.now) out.new }
{
    match answer {
        Ok(()) => put_cells(numbers.next.0, numbers.ports, exhaled, out),
        Err(refusal) => printing::put_refused(out, refusal.number()),
    }
}

// The emitted cells of a slot, by output.
#[tactic(auto, using(printing::specs::Prints::put_within))]
fn put_cells(slot: u32, ports: u32, exhaled: &[u32], out: &mut Page<'_>)
    requires entries { (ports ≤ most_ports) × (ports * exhaled_width ≤ length exhaled.now) }
    requires room { out.old.count + end_room ≤ length out.old.bytes.now }
    ensures { Put end_room out.old (slot_text slot ports exhaled.now) out.new }
{
    for output in 0..ports {
        put_output(slot, output, exhaled, out);
    }
}

// What one output emitted, if it did: an entry says that in its first word.
#[tactic(auto, using(printing::specs::Prints::put_none), unfolding(crate::specs::Program::cell_text, laws::specs::Pieces::part))]
fn put_output(slot: u32, output: u32, exhaled: &[u32], out: &mut Page<'_>)
    requires entry { output * exhaled_width + exhaled_width ≤ length exhaled.now }
    requires room { out.old.count + line_bytes ≤ length out.old.bytes.now }
    ensures { Put line_bytes out.old (cell_text slot exhaled.now output) out.new }
{
    let word = output as usize * EXHALED_WORDS;
    if let [(1..), cell @ ..] = &exhaled[word..word + EXHALED_WORDS] {
        printing::put_cell(out, slot, output, cell);
    }
}
