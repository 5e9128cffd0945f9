// A number of a line: its digits as they come, however many pieces they stand in.

ghost use Rattle.std.specs.Prelude.{◌≡◌};
ghost use Rattle.laws.specs.Tests.{No};
ghost use Rattle.text.specs.declared.number.Number.TheVariants.{Empty, Value};
ghost use Rattle.characters.specs.Characters.{is_digit};
ghost use Rattle.text.specs.Steps.{grown, number_step, value_in};
ghost use Rattle.text.specs.Parts.{NumberTaken, Grows};

use crate::piece::Piece;
use characters::{FIRST_DIGIT, LAST_DIGIT};

// A byte that a number may end at, beside those that end its field.
#[derive(Clone, Copy, Debug)]
pub(crate) struct Stop {
    pub byte: u8,
    ghost no_digit: { No (is_digit byte) },
}

// A number as far as it was read. One that has no digit yet is not zero.
#[derive(Clone, Copy, Debug, PartialEq, Eq)]
pub enum Number {
    Empty,
    Value(u32),
    NoNumber,
}

impl Number {
    // What the digits come to, where they are a number.
    pub(crate) fn value(self) -> Option<u32>
        ensures { result ≡ value_in self }
    {
        match self {
            Number::Value(value) => Some(value),
            Number::Empty | Number::NoNumber => None,
        }
    }

    // One byte more.
    pub(crate) fn step(self, byte: u8) -> Number
        ensures { result ≡ number_step self byte }
    {
        match self {
            Number::Empty => grown(0, byte),
            Number::Value(value) => grown(value, byte),
            Number::NoNumber => Number::NoNumber,
        }
    }

    // The bytes up to `stop`, a space, a newline or the piece's end.
    #[tactic(auto, using(crate::specs::Parts::upto_further, crate::specs::Parts::empty_taken, crate::specs::Parts::none_taken))]
    pub(crate) fn read(self, piece: &mut Piece<'_>, stop: Stop) -> Number
        ensures taken { NumberTaken stop.byte piece.old.bytes.now self piece.old.next result piece.new.next }
        ensures same_bytes { piece.new.bytes.now ≡ piece.old.bytes.now }
    {
        match self {
            Number::Empty if piece.is_at_end(stop.byte) => Number::Empty,
            Number::Empty => read_value(0, piece, stop),
            Number::Value(value) => read_value(value, piece, stop),
            Number::NoNumber => {
                piece.skip(stop.byte);
                Number::NoNumber
            }
        }
    }
}

// The sum is made in 64 bits, where it cannot wrap; a number that is too large is none, however many digits follow.
#[tactic(auto, using(std::proofs::lemmas::Bool::Decides::nat_tests), unfolding(crate::specs::Steps::grown, characters::specs::Characters::is_digit, characters::specs::Characters::push))]
fn grown(value: u32, byte: u8) -> Number
    ensures { result ≡ grown value byte }
{
    if !(FIRST_DIGIT..=LAST_DIGIT).contains(&byte) {
        return Number::NoNumber;
    }
    let sum = u64::from(value) * 10 + u64::from(byte - FIRST_DIGIT);
    u32::try_from(sum).map_or(Number::NoNumber, Number::Value)
}

// What stands between the digits and the number's end makes it none.
fn read_value(value: u32, piece: &mut Piece<'_>, stop: Stop) -> Number
    ensures taken { NumberTaken stop.byte piece.old.bytes.now (Value value) piece.old.next result piece.new.next }
    ensures same_bytes { piece.new.bytes.now ≡ piece.old.bytes.now }
{
    let read = read_digits(value, piece);
    if piece.skip(stop.byte) {
        Number::NoNumber
    } else {
        Number::Value(read)
    }
}

// The digits that fit, up to a byte that makes the number none.
#[tactic(auto, using(std::proofs::lemmas::Option::slice_get_within))]
fn read_digits(value: u32, piece: &mut Piece<'_>) -> u32
    ensures taken { Grows piece.old.bytes.now value piece.old.next result piece.new.next }
    ensures same_bytes { piece.new.bytes.now ≡ piece.old.bytes.now }
{
    let mut read = value;
    while let Some(byte) = piece.peek() {
        let Number::Value(sum) = grown(read, byte) else {
            break;
        };
        read = sum;
        piece.advance();
    }
    read
}
