// A switch that was started, and the slots that it runs.

ghost use Rattle.std.specs.Prelude.{◌≡◌, ◌≤◌};
ghost use Rattle.rules.specs.Cells.{most_ports, most_speedup};
ghost use Rattle.program.specs.Lent.{lent_table_words, lent_words};

use crate::outcome::put_outcome;
use crate::{MOST_LENT, Memory, Program};
use printing::Page;
use rules::{ARRIVAL_WORDS, EXHALED_WORDS, MOST_SPEEDUP, PORT_COUNT, RECORD_WORDS, Slot, Switch};
use switch::Crossbar;
use text::{FirstLine, Piece, SlotReader};

// The words of a slot's other two lists, for the largest numbers.
const MATCH_WORDS: usize = MOST_SPEEDUP as usize * PORT_COUNT;

const EMITTED_WORDS: usize = PORT_COUNT * EXHALED_WORDS;

// A switch after its accepted fresh start, and how many words of the table are its own.
#[derive(Clone, Copy, Debug)]
pub struct Running {
    crossbar: Crossbar,
    words: usize,
    ghost ports: { crossbar.numbers.ports ≤ most_ports },
    ghost speedup: { crossbar.numbers.speedup ≤ most_speedup },
    ghost lent: { words ≤ lent_table_words },
}

impl Running {
    ghost use Rattle.std.specs.Prelude.{◌+◌, ◌<◌, length};
    ghost use Rattle.printing.specs.Printed.{line_bytes};
    ghost use Rattle.printing.specs.Prints.{Put};
    ghost use Rattle.program.specs.declared.Program.TheVariants.{Within};
    ghost use Rattle.program.specs.Program.{held_text, end_text};
    ghost use Rattle.program.specs.Lent.{arrival_words, end_room};
    ghost use Rattle.program.specs.Coming.{state_of, line_words, line_of, on_numbers, on_newline, on_words, Turns, SameMemory, PassGoes};

    // The fresh start that a first line asks for.
    pub(crate) fn begin(line: FirstLine, memory: &mut Memory<'_>, out: &mut Page<'_>) -> Program
        requires { out.old.count + end_room ≤ length out.old.bytes.now }
        ensures turns { Turns (on_numbers line) out.old result memory.new.table.now out.new }
        ensures same_memory { SameMemory memory.old memory.new }
    {
        let words = lent_words(line.records);
        let mut crossbar = Crossbar {
            numbers: Switch {
                ports: line.ports,
                speedup: line.speedup,
                next: Slot(0),
            },
        };
        if let Err(refusal) = crossbar.fresh_start(&mut memory.table[..words]) {
            printing::put_refused(out, refusal.number());
            return Program::Over;
        }
        printing::put_header(out);
        Program::Between(Running { crossbar, words })
    }

    // What a piece has of a slot line, with the line's end if that is there.
    pub(crate) fn advance(
        self,
        reader: SlotReader,
        piece: &mut Piece<'_>,
        memory: &mut Memory<'_>,
        out: &mut Page<'_>,
    ) -> Program
        requires more { piece.old.next < length piece.old.bytes.now }
        requires room { out.old.count + end_room ≤ length out.old.bytes.now }
        ensures goes { PassGoes end_room piece.old (Within self reader) memory.old out.old piece.new result memory.new out.new }
        ensures same_memory { SameMemory memory.old memory.new }
        ensures further { piece.old.next < piece.new.next }
    {
        let width = self.line_words();
        let reader = reader.read(piece, &mut memory.arrivals[..width]);
        if piece.is_empty() {
            return Program::Within(self, reader);
        }
        piece.advance();
        self.end_line(reader, memory, out)
    }

    // How many words of the arrivals a slot line is read into.
    fn line_words(self) -> usize
        ensures value { result ≡ line_words self }
        ensures within { result ≤ arrival_words }
    {
        self.crossbar.numbers.ports as usize * ARRIVAL_WORDS
    }

    // A slot line's newline.
    #[tactic(auto, using(crate::specs::Turns::turns_unread))]
    fn end_line(self, reader: SlotReader, memory: &mut Memory<'_>, out: &mut Page<'_>) -> Program
        requires { out.old.count + end_room ≤ length out.old.bytes.now }
        ensures turns { Turns (on_newline (state_of self memory.old.table.now) (line_of self reader memory.old.arrivals.now)) out.old
            result memory.new.table.now out.new }
        ensures same_memory { SameMemory memory.old memory.new }
    {
        let width = self.line_words();
        if !reader.finish(&mut memory.arrivals[..width]) {
            self.put_end(memory.table, out);
            return Program::Over;
        }
        let words = &memory.arrivals[..width];
        self.slot(memory.table, words, out)
    }

    // One slot with a line's words, and with two lists of the lengths that go with the numbers. Where it is refused the numbers stay as they were,
    // so the next line is tried at the same slot.
    fn slot(self, table: &mut [u32], arrivals: &[u32], out: &mut Page<'_>) -> Program
        requires table_long { length table.old ≡ lent_table_words }
        requires room { out.old.count + end_room ≤ length out.old.bytes.now }
        ensures { Turns (on_words (state_of self table.old) arrivals.now) out.old result table.new out.new }
    {
        let numbers = self.crossbar.numbers;
        let ports = numbers.ports as usize;
        let moved = numbers.speedup as usize * ports;
        let mut matches = [0; MATCH_WORDS];
        let mut exhaled = [0; EMITTED_WORDS];
        let exhaled = &mut exhaled[..ports * EXHALED_WORDS];
        let mut crossbar = self.crossbar;
        let own = &mut table[..self.words];
        let answer = crossbar.slot(own, arrivals, &mut matches[..moved], exhaled);
        put_outcome(answer, numbers, exhaled, out);
        Program::Between(Running {
            crossbar,
            words: self.words,
        })
    }

    // The last two lines where a line was not read.
    pub(crate) fn put_end(self, table: &[u32], out: &mut Page<'_>)
        requires table_long { length table.now ≡ lent_table_words }
        requires room { out.old.count + end_room ≤ length out.old.bytes.now }
        ensures { Put end_room out.old (end_text (state_of self table.now)) out.new }
    {
        printing::put_unreadable(out);
        self.put_held(table, out);
    }

    #[tactic(auto, unfolding(crate::specs::Program::held_text))]
    pub(crate) fn put_held(self, table: &[u32], out: &mut Page<'_>)
        requires table_long { length table.now ≡ lent_table_words }
        requires room { out.old.count + line_bytes ≤ length out.old.bytes.now }
        ensures { Put line_bytes out.old (held_text (state_of self table.now)) out.new }
    {
        let live = switch::held(&table[..self.words]);
        printing::put_held(out, live as u32);
    }
}

// The words that are lent for a table of so many records.
#[tactic(auto, using(std::proofs::lemmas::Bool::Decides::nat_tests), unfolding(crate::specs::Lent::lent_words))]
fn lent_words(records: u32) -> usize
    ensures { result ≡ lent_words records }
{
    records.min(MOST_LENT) as usize * RECORD_WORDS
}
