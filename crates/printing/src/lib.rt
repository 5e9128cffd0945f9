// Printed lines, put one behind the other on a page that the caller lends.
#![tactic(auto)]

mod line;
mod page;

ghost use Rattle.std.specs.Prelude.{◌+◌, ◌≤◌, ◌++◌, length};
ghost use Rattle.characters.specs.Characters.{newline};
ghost use Rattle.printing.specs.Printed.{field, header_line, cell_line};
ghost use Rattle.printing.specs.Printed.{refused_line, unreadable_line, held_line, field_bytes, lead_columns, columns, line_bytes};
ghost use Rattle.printing.specs.Prints.{Put};

use characters::{NEWLINE, SPACE};
use line::Line;
pub use page::Page;

// The digits of the longest number, and the byte behind them; the numbers of a cell's line, and so the bytes of the longest line.
// `number_bytes`, `field_bytes`, `columns` and `line_bytes` of specs/Printed.antt are the same for contracts.
const NUMBER_BYTES: usize = 10;

const FIELD_BYTES: usize = NUMBER_BYTES + 1;

const COLUMNS: usize = 5;

pub const LINE_BYTES: usize = COLUMNS * FIELD_BYTES;

#[tactic(auto, using(crate::specs::Prints::put_within), unfolding(crate::specs::Printed::header_line, laws::specs::Texts::bytes))]
pub fn put_header(out: &mut Page<'_>)
    requires { out.old.count + line_bytes ≤ length out.old.bytes.now }
    ensures { Put line_bytes out.old header_line out.new }
{
    out.put_text(b"slot output input entered tag\n");
}

#[tactic(auto, using(crate::specs::Prints::put_within), unfolding(crate::specs::Printed::unreadable_line, laws::specs::Texts::bytes))]
pub fn put_unreadable(out: &mut Page<'_>)
    requires { out.old.count + line_bytes ≤ length out.old.bytes.now }
    ensures { Put line_bytes out.old unreadable_line out.new }
{
    out.put_text(b"unreadable\n");
}

#[tactic(auto, using(crate::specs::Prints::put_within), unfolding(crate::specs::Printed::refused_line, laws::specs::Texts::bytes))]
pub fn put_refused(out: &mut Page<'_>, number: u32)
    requires { out.old.count + line_bytes ≤ length out.old.bytes.now }
    ensures { Put line_bytes out.old (refused_line number) out.new }
{
    put_message(out, b"refused ", number);
}

#[tactic(auto, using(crate::specs::Prints::put_within), unfolding(crate::specs::Printed::held_line, laws::specs::Texts::bytes))]
pub fn put_held(out: &mut Page<'_>, live: u32)
    requires { out.old.count + line_bytes ≤ length out.old.bytes.now }
    ensures { Put line_bytes out.old (held_line live) out.new }
{
    put_message(out, b"held ", live);
}

// A cell's line: its numbers are the slot, the output, and all that the entry says of the cell.
#[tactic(auto, using(crate::specs::Prints::put_within), unfolding(crate::specs::Printed::cell_line))]
pub fn put_cell(out: &mut Page<'_>, slot: u32, output: u32, entry: &[u32])
    requires columns { lead_columns + length entry.now ≤ columns }
    requires room { out.old.count + line_bytes ≤ length out.old.bytes.now }
    ensures { Put line_bytes out.old (cell_line slot output entry.now) out.new }
{
    let mut line = Line::new();
    line.prepend_all(entry);
    line.prepend(output, SPACE);
    line.prepend(slot, SPACE);
    out.put_text(line.bytes());
}

// A word, and a number behind it.
#[tactic(auto, using(crate::specs::Prints::put_room))]
fn put_message(out: &mut Page<'_>, word: &[u8], number: u32)
    requires { out.old.count + length word.now + field_bytes ≤ length out.old.bytes.now }
    ensures { Put (length word.now + field_bytes) out.old (word.now ++ field number newline) out.new }
{
    let mut line = Line::new();
    line.prepend(number, NEWLINE);
    out.put_text(word);
    out.put_text(line.bytes());
}
