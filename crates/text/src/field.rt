// A field of a slot line: `-`, or an output, a colon and a tag.

ghost use Rattle.std.specs.Prelude.{◌≡◌};
ghost use Rattle.text.specs.declared.field.Field.TheVariants.{Start, Dash, Output, Tag, NoField};
ghost use Rattle.text.specs.Steps.{colon_step, field_end, tag_end, is_good};
ghost use Rattle.text.specs.Parts.{FieldTaken};

use crate::number::{Number, Stop};
use crate::piece::Piece;
use characters::{COLON, DASH, SPACE};

const LARGEST_OUTPUT: u32 = 4_294_967_294;

// A field as far as it was read. A tag comes with its output's word.
#[derive(Clone, Copy, Debug, PartialEq, Eq)]
pub enum Field {
    Start,
    Dash,
    Output(Number),
    Tag(u32, Number),
    NoField,
}

// What a whole field says: the two words of an input.
#[derive(Clone, Copy, Debug, PartialEq, Eq)]
pub struct Arrival {
    pub word: u32,
    pub tag: u32,
}

impl Field {
    // The bytes up to a space, a newline or the piece's end.
    pub(crate) fn read(self, piece: &mut Piece<'_>) -> Field
        ensures taken { FieldTaken piece.old.bytes.now self piece.old.next result piece.new.next }
        ensures same_bytes { piece.new.bytes.now ≡ piece.old.bytes.now }
    {
        match self {
            Field::Start => read_start(piece),
            Field::Output(number) => read_output(number, piece),
            Field::Tag(word, number) => read_tag(word, number, piece),
            Field::Dash => read_dash(piece),
            Field::NoField => read_broken(piece),
        }
    }

    pub(crate) fn end(self) -> Option<Arrival>
        ensures { result ≡ field_end self }
    {
        match self {
            Field::Dash => Some(Arrival { word: 0, tag: 0 }),
            Field::Tag(word, number) => tag_end(word, number),
            Field::Start | Field::Output(_) | Field::NoField => None,
        }
    }

    pub(crate) fn is_good(self) -> bool
        ensures { result ≡ is_good self }
    {
        !matches!(self, Field::NoField)
    }
}

#[tactic(auto, unfolding(crate::specs::Steps::tag_end))]
fn tag_end(word: u32, number: Number) -> Option<Arrival>
    ensures { result ≡ tag_end word number }
{
    let tag = number.value()?;
    Some(Arrival { word, tag })
}

// A field that has no byte yet stays so.
fn read_start(piece: &mut Piece<'_>) -> Field
    ensures taken { FieldTaken piece.old.bytes.now Start piece.old.next result piece.new.next }
    ensures same_bytes { piece.new.bytes.now ≡ piece.old.bytes.now }
{
    if piece.take(DASH) {
        read_dash(piece)
    } else if piece.is_at_end(SPACE) {
        Field::Start
    } else {
        read_output(Number::Empty, piece)
    }
}

#[tactic(auto, unfolding(characters::specs::Characters::is_digit))]
fn read_output(number: Number, piece: &mut Piece<'_>) -> Field
    ensures taken { FieldTaken piece.old.bytes.now (Output number) piece.old.next result piece.new.next }
    ensures same_bytes { piece.new.bytes.now ≡ piece.old.bytes.now }
{
    let output = number.read(piece, Stop { byte: COLON });
    if piece.take(COLON) {
        read_behind_colon(output, piece)
    } else {
        Field::Output(output)
    }
}

// What stands behind a number's colon. An output's word is the output + 1, so the largest number is no output.
#[tactic(auto, using(std::proofs::lemmas::Bool::Decides::nat_tests), unfolding(crate::specs::Steps::colon_step, crate::specs::Steps::may_lead))]
fn read_behind_colon(number: Number, piece: &mut Piece<'_>) -> Field
    ensures taken { FieldTaken piece.old.bytes.now (colon_step number) piece.old.next result piece.new.next }
    ensures same_bytes { piece.new.bytes.now ≡ piece.old.bytes.now }
{
    match number {
        Number::Value(output) if output <= LARGEST_OUTPUT => {
            read_tag(output + 1, Number::Empty, piece)
        }
        _ => read_broken(piece),
    }
}

#[tactic(auto, unfolding(characters::specs::Characters::is_digit))]
fn read_tag(word: u32, number: Number, piece: &mut Piece<'_>) -> Field
    ensures taken { FieldTaken piece.old.bytes.now (Tag word number) piece.old.next result piece.new.next }
    ensures same_bytes { piece.new.bytes.now ≡ piece.old.bytes.now }
{
    Field::Tag(word, number.read(piece, Stop { byte: SPACE }))
}

// Nothing stands behind a `-`.
#[tactic(auto, using(crate::specs::Parts::taken_still, crate::specs::Parts::broken_taken, crate::specs::Parts::dash_taken))]
fn read_dash(piece: &mut Piece<'_>) -> Field
    ensures taken { FieldTaken piece.old.bytes.now Dash piece.old.next result piece.new.next }
    ensures same_bytes { piece.new.bytes.now ≡ piece.old.bytes.now }
{
    if piece.skip(SPACE) {
        Field::NoField
    } else {
        Field::Dash
    }
}

#[tactic(auto, using(crate::specs::Parts::broken_taken))]
fn read_broken(piece: &mut Piece<'_>) -> Field
    ensures taken { FieldTaken piece.old.bytes.now NoField piece.old.next result piece.new.next }
    ensures same_bytes { piece.new.bytes.now ≡ piece.old.bytes.now }
{
    piece.skip(SPACE);
    Field::NoField
}
