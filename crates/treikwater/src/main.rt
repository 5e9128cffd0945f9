// The program of document 01: it runs the arrivals of standard input and prints the emitted cells to standard output.
// What is printed for which input is settled in `program`. Here the bytes come in and go out, in large pieces.
#![tactic(auto)]

ghost use Rattle.std.specs.Prelude.{◌≤◌, ◌≡◌, length};
ghost use Rattle.program.specs.Lent.{end_room};

use printing::Page;
use program::{LINE_WORDS, Memory, Program, TABLE_WORDS};
use std::io::{Read, Write};
use text::Piece;

// How many bytes a read takes, at most, and how many are written at a time.
const PIECE_BYTES: usize = 65536;

fn main(rt: HostRuntime) {
    let mut bytes = [0; PIECE_BYTES];
    let mut table = [0; TABLE_WORDS];
    let mut arrivals = [0; LINE_WORDS];
    let mut printed = [0; PIECE_BYTES];
    let mut memory = Memory {
        table: &mut table,
        arrivals: &mut arrivals,
    };
    let mut out = Page::new(&mut printed, 0);
    run(
        &mut rt.stdin(),
        &mut rt.stdout(),
        &mut bytes,
        &mut memory,
        &mut out,
    );
}

// A failed read ends the input as its end would. A proved loop has to end, and nothing says that the input does: so the turns are counted, to a
// number that no run uses up.
fn run<R: Read, W: Write>(
    input: &mut R,
    output: &mut W,
    bytes: &mut [u8; PIECE_BYTES],
    memory: &mut Memory<'_>,
    out: &mut Page<'_>,
)
    requires { end_room ≤ length out.old.bytes.now }
{
    let mut program = Program::start();
    for _ in 0..u64::MAX {
        let n = input.read(bytes).unwrap_or(0);
        if n == 0 {
            end(output, program, memory, out);
            return;
        }
        program = take(output, program, &bytes[..n], memory, out);
        if program.is_over() {
            return;
        }
    }
}

// The end of the input: the last lines.
fn end<W: Write>(output: &mut W, program: Program, memory: &Memory<'_>, out: &mut Page<'_>)
    requires { end_room ≤ length out.old.bytes.now }
{
    out.clear();
    program.finish(memory.table, out);
    let _ = output.write_all(out.text());
}

// Takes a piece of the input, and writes the page out where it is full and at the piece's end. A failed write ends the run.
fn take<W: Write>(
    output: &mut W,
    mut program: Program,
    bytes: &[u8],
    memory: &mut Memory<'_>,
    out: &mut Page<'_>,
) -> Program
    requires { end_room ≤ length out.old.bytes.now }
    ensures { length out.new.bytes.now ≡ length out.old.bytes.now }
{
    let mut piece = Piece::new(bytes);
    while !piece.is_empty() {
        out.clear();
        program = program.pass(&mut piece, memory, out);
        if output.write_all(out.text()).is_err() {
            return Program::Over;
        }
    }
    program
}
