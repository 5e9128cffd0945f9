// The program of document 01 without its reading and writing: a state by value that takes the pieces that the input comes in, and puts what
// is to be printed on the page that it is lent. Every number printed, refusals too, is an answer of the switch's public calls.
#![tactic(auto)]

ghost use Rattle.std.specs.Prelude.{◌+◌, ◌≤◌, ◌<◌, ◌≡◌, length};
ghost use Rattle.text.specs.Steps.{first_start};
ghost use Rattle.printing.specs.Prints.{Put};
ghost use Rattle.program.specs.declared.Program.TheVariants.{First};
ghost use Rattle.program.specs.Lent.{lent_table_words, end_room};
ghost use Rattle.program.specs.Coming.{closing, is_over, on_byte, Turns, SameMemory, PassGoes};

mod memory;
mod outcome;
mod running;

use characters::NEWLINE;
pub use memory::Memory;
use printing::{LINE_BYTES, Page};
use rules::{ARRIVAL_WORDS, MOST_RECORDS, PORT_COUNT, RECORD_WORDS};
pub use running::Running;
use text::{FirstReader, Piece, SlotReader};

// One record more than the largest table: a longer one that is asked for is refused by the switch itself.
const MOST_LENT: u32 = MOST_RECORDS as u32 + 1;

// The words of that table, and of the arrivals of all inputs: what the caller lends. `lent_table_words`, `arrival_words` and `end_room` of
// specs/Lent.antt are the same for contracts.
pub const TABLE_WORDS: usize = MOST_LENT as usize * RECORD_WORDS;

pub const LINE_WORDS: usize = PORT_COUNT * ARRIVAL_WORDS;

// What one line's end may print: a line of a cell for each output.
const END_ROOM: usize = PORT_COUNT * LINE_BYTES;

// How far the input was read: into the first line, between two lines, into a slot line, or to the end of the reading.
#[derive(Clone, Copy, Debug)]
pub enum Program {
    First(FirstReader),
    Between(Running),
    Within(Running, SlotReader),
    Over,
}

impl Program {
    pub fn start() -> Program
        ensures { result ≡ First first_start }
    {
        Program::First(FirstReader::start())
    }

    // Nothing more is printed, whatever follows.
    pub fn is_over(self) -> bool
        ensures { result ≡ is_over self }
    {
        matches!(self, Program::Over)
    }

    // Takes bytes of a piece, as long as the page has room for what the next line's end may print.
    pub fn pass(self, piece: &mut Piece<'_>, memory: &mut Memory<'_>, out: &mut Page<'_>) -> Program
        requires { out.old.count + end_room ≤ length out.old.bytes.now }
        ensures goes { PassGoes (length out.old.bytes.now) piece.old self memory.old out.old piece.new result memory.new out.new }
        ensures same_memory { SameMemory memory.old memory.new }
        ensures further { piece.old.next < length piece.old.bytes.now → piece.old.next < piece.new.next }
    {
        let mut program = self;
        while !piece.is_empty() && out.room() >= END_ROOM {
            program = program.advance(piece, memory, out);
        }
        program
    }

    // A byte of the first line, or all that a piece has of a slot line.
    fn advance(self, piece: &mut Piece<'_>, memory: &mut Memory<'_>, out: &mut Page<'_>) -> Program
        requires more { piece.old.next < length piece.old.bytes.now }
        requires room { out.old.count + end_room ≤ length out.old.bytes.now }
        ensures goes { PassGoes end_room piece.old self memory.old out.old piece.new result memory.new out.new }
        ensures same_memory { SameMemory memory.old memory.new }
        ensures further { piece.old.next < piece.new.next }
    {
        match self {
            Program::First(reader) => {
                let byte = piece.next_byte().unwrap();
                first_step(reader, byte, memory, out)
            }
            Program::Between(running) => running.advance(SlotReader::start(), piece, memory, out),
            Program::Within(running, reader) => running.advance(reader, piece, memory, out),
            Program::Over => {
                piece.skip_all();
                Program::Over
            }
        }
    }

    // The end of the input: bytes after the last newline are an unreadable line, and so is a missing first line.
    #[tactic(auto, using(printing::specs::Prints::put_none, printing::specs::Prints::put_within), unfolding(crate::specs::Coming::closing))]
    pub fn finish(self, table: &[u32], out: &mut Page<'_>)
        requires table_long { length table.now ≡ lent_table_words }
        requires room { out.old.count + end_room ≤ length out.old.bytes.now }
        ensures { Put end_room out.old (closing self table.now) out.new }
    {
        match self {
            Program::First(_) => printing::put_unreadable(out),
            Program::Between(running) => running.put_held(table, out),
            Program::Within(running, _) => running.put_end(table, out),
            Program::Over => {}
        }
    }
}

// A byte of the first line, or its end.
fn first_step(reader: FirstReader, byte: u8, memory: &mut Memory<'_>, out: &mut Page<'_>) -> Program
    requires { out.old.count + end_room ≤ length out.old.bytes.now }
    ensures turns { Turns (on_byte reader byte) out.old result memory.new.table.now out.new }
    ensures same_memory { SameMemory memory.old memory.new }
{
    if byte != NEWLINE {
        return Program::First(reader.step(byte));
    }
    let Some(line) = reader.finish() else {
        printing::put_unreadable(out);
        return Program::Over;
    };
    Running::begin(line, memory, out)
}
