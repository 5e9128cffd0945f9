// The lines of an arrival list: the first one read one byte at a time, a slot's field by field from the pieces that it comes in. No line and no
// field has a longest length, and nothing is kept but the state here. What a line means is said of the whole line in specs/Lines.antt;
// specs/Reading.antt and proofs/Reading.antt have the laws that a step a byte comes to that, and specs/Parts.antt those by which many bytes are read at once.
#![tactic(auto)]

ghost use Rattle.std.specs.Prelude.{◌≡◌, unwrap_or};
ghost use Rattle.text.specs.declared.field.Field.TheVariants.{NoField};
ghost use Rattle.text.specs.Steps.{line_state_of, reader_start, end_field, Finished, one_more, first_start, first_step, first_answer};
ghost use Rattle.text.specs.Parts.{LineTaken};

mod field;
mod number;
mod piece;

use characters::SPACE;
pub use field::{Arrival, Field};
pub use number::Number;
pub use piece::Piece;
use rules::ARRIVAL_WORDS;

// What a first line says: N, S and the table length.
#[derive(Clone, Copy, Debug, PartialEq, Eq)]
pub struct FirstLine {
    pub ports: u32,
    pub speedup: u32,
    pub records: u32,
}

// A first line as far as it was read: how many of its fields ended, up to 3, and its last three fields.
#[derive(Clone, Copy, Debug)]
pub struct FirstReader {
    ended: u8,
    ports: Number,
    speedup: Number,
    records: Number,
}

// A slot line as far as it was read: where the words of its next field go, and that field. A line that cannot be read any more stays so.
#[derive(Clone, Copy, Debug)]
pub struct SlotReader {
    at: usize,
    field: Field,
}

impl FirstReader {
    pub fn start() -> FirstReader
        ensures { result ≡ first_start }
    {
        FirstReader {
            ended: 0,
            ports: Number::Empty,
            speedup: Number::Empty,
            records: Number::Empty,
        }
    }

    // One byte of the line, and no newline. Where a field ends, the earlier ones move up.
    #[tactic(auto, using(std::proofs::lemmas::Bool::Decides::nat_tests), unfolding(crate::specs::Steps::first_step))]
    pub fn step(self, byte: u8) -> FirstReader
        ensures { result ≡ first_step self byte }
    {
        if byte != SPACE {
            return FirstReader {
                records: self.records.step(byte),
                ..self
            };
        }
        FirstReader {
            ended: one_more(self.ended),
            ports: self.speedup,
            speedup: self.records,
            records: Number::Empty,
        }
    }

    // The line's end.
    #[tactic(auto, using(std::proofs::lemmas::Bool::Decides::nat_tests), unfolding(crate::specs::Steps::first_answer, crate::specs::Steps::three_of))]
    pub fn finish(self) -> Option<FirstLine>
        ensures { result ≡ first_answer self }
    {
        if self.ended != 2 {
            return None;
        }
        Some(FirstLine {
            ports: self.ports.value()?,
            speedup: self.speedup.value()?,
            records: self.records.value()?,
        })
    }
}

// Three fields or more are all one: the count stays where it is, however long the line.
fn one_more(ended: u8) -> u8
    ensures { result ≡ one_more ended }
{
    if ended < 3 { ended + 1 } else { ended }
}

impl SlotReader {
    pub fn start() -> SlotReader
        ensures { result ≡ reader_start }
    {
        SlotReader {
            at: 0,
            field: Field::Start,
        }
    }

    // Takes the bytes of a piece as far as they are the line's. Where a field ends, its words are written.
    pub fn read(self, piece: &mut Piece<'_>, words: &mut [u32]) -> SlotReader
        ensures taken { LineTaken piece.old.bytes.now (line_state_of self words.old) piece.old.next
            (line_state_of result words.new) piece.new.next }
        ensures same_bytes { piece.new.bytes.now ≡ piece.old.bytes.now }
    {
        let mut reader = self;
        loop {
            reader.field = reader.field.read(piece);
            if !piece.take(SPACE) {
                return reader;
            }
            reader = reader.end_field(words);
        }
    }

    // The line's end. Whether it was read; if so, every word of the list is the line's.
    #[tactic(auto, using(std::proofs::lemmas::Bool::Decides::nat_tests), unfolding(crate::specs::Steps::is_complete))]
    pub fn finish(self, words: &mut [u32]) -> bool
        ensures { Finished (line_state_of self words.old) result words.new }
    {
        let last = self.end_field(words);
        last.field.is_good() && last.at == words.len()
    }

    // The field's end. What cannot be read, or has no room, breaks the line.
    fn end_field(self, words: &mut [u32]) -> SlotReader
        ensures { line_state_of result words.new ≡ end_field (line_state_of self words.old) }
    {
        self.write(words).unwrap_or(SlotReader {
            field: Field::NoField,
            ..self
        })
    }

    // The reader behind the words of the field, where it is one and the list has room for them.
    #[tactic(auto, using(std::proofs::lemmas::Bool::Decides::nat_tests), unfolding(crate::specs::Steps::end_field, crate::specs::Steps::written))]
    fn write(self, words: &mut [u32]) -> Option<SlotReader>
        ensures { line_state_of (unwrap_or result (record self { field = NoField })) words.new ≡ end_field (line_state_of self words.old) }
    {
        let arrival = self.field.end()?;
        let last = words.len().checked_sub(ARRIVAL_WORDS)?;
        if self.at > last {
            return None;
        }
        words[self.at] = arrival.word;
        words[self.at + 1] = arrival.tag;
        Some(SlotReader {
            at: self.at + ARRIVAL_WORDS,
            field: Field::Start,
        })
    }
}
