// The piece that the input has come to, and how far it was read.

ghost use Rattle.std.specs.Prelude.{◌≤◌, ◌≡◌, length, position};
ghost use Rattle.text.specs.Parts.{ends};

use characters::{NEWLINE, SPACE};

// A piece of the input, and the first of its bytes that was not taken.
#[derive(Clone, Copy, Debug)]
pub struct Piece<'a> {
    bytes: &'a [u8],
    next: usize,
    ghost inside: { next ≤ length bytes.now },
}

impl<'a> Piece<'a> {
    // None of its bytes was taken yet.
    pub fn new(bytes: &'a [u8]) -> Piece<'a>
        ensures start { result.next ≡ 0 }
        ensures same_bytes { result.bytes.now ≡ bytes.now }
    {
        Piece { bytes, next: 0 }
    }
}

impl Piece<'_> {
    ghost use Rattle.std.specs.Prelude.{◌+◌, ◌<◌, cond, eqb, is_some, ltb, slice_get};
    ghost use Rattle.text.specs.Parts.{is_byte, is_end, Upto};

    // How many of its bytes were taken.
    pub fn position(&self) -> usize
        ensures { result ≡ self.now.next }
    {
        self.next
    }

    // Whether every byte was taken.
    pub fn is_empty(&self) -> bool
        ensures { result ≡ eqb self.now.next (length self.now.bytes.now) }
    {
        self.next == self.bytes.len()
    }

    // The first byte that was not taken. At the piece's end there is none.
    pub fn peek(&self) -> Option<u8>
        ensures { result ≡ slice_get self.now.bytes.now self.now.next }
    {
        self.bytes.get(self.next).copied()
    }

    pub fn advance(&mut self)
        requires { self.old.next < length self.old.bytes.now }
        ensures next { self.new.next ≡ self.old.next + 1 }
        ensures same_bytes { self.new.bytes.now ≡ self.old.bytes.now }
    {
        self.next += 1;
    }

    // Takes the next byte. At the piece's end there is none, and the piece stays there.
    pub fn next_byte(&mut self) -> Option<u8>
        ensures byte { result ≡ slice_get self.old.bytes.now self.old.next }
        ensures next { self.new.next ≡ cond (is_some result) (self.old.next + 1) self.old.next }
        ensures same_bytes { self.new.bytes.now ≡ self.old.bytes.now }
    {
        let byte = self.peek()?;
        self.advance();
        Some(byte)
    }

    // Takes all that is left.
    pub fn skip_all(&mut self)
        ensures next { self.new.next ≡ length self.old.bytes.now }
        ensures same_bytes { self.new.bytes.now ≡ self.old.bytes.now }
    {
        self.next = self.bytes.len();
    }

    // Takes the next byte where it is this one: whether it is.
    pub(crate) fn take(&mut self, byte: u8) -> bool
        ensures is { result ≡ is_byte byte (slice_get self.old.bytes.now self.old.next) }
        ensures next { self.new.next ≡ cond result (self.old.next + 1) self.old.next }
        ensures same_bytes { self.new.bytes.now ≡ self.old.bytes.now }
    {
        let taken = self.peek() == Some(byte);
        if taken {
            self.advance();
        }
        taken
    }

    // Whether the next byte is `stop` or ends a field, or the piece is at its end.
    pub(crate) fn is_at_end(&self, stop: u8) -> bool
        ensures { result ≡ is_end (ends stop) (slice_get self.now.bytes.now self.now.next) }
    {
        self.peek().is_none_or(|byte| ends(byte, stop))
    }

    // Takes the bytes up to there: whether there are any.
    pub(crate) fn skip(&mut self, stop: u8) -> bool
        ensures any { result ≡ ltb self.old.next self.new.next }
        ensures place { Upto (ends stop) self.old.bytes.now self.old.next self.new.next }
        ensures same_bytes { self.new.bytes.now ≡ self.old.bytes.now }
    {
        let rest = &self.bytes[self.next..];
        let before = end_in(rest, stop).unwrap_or(rest.len());
        self.next += before;
        before > 0
    }
}

// The place of the first byte that is `stop` or ends a field, if there is one.
fn end_in(bytes: &[u8], stop: u8) -> Option<usize>
    ensures { result ≡ position (ends stop) bytes.now }
{
    bytes.iter().position(|byte| ends(*byte, stop))
}

#[tactic(auto, using(std::proofs::lemmas::Bool::Decides::nat_tests), unfolding(crate::specs::Parts::ends))]
fn ends(byte: u8, stop: u8) -> bool
    ensures { result ≡ ends stop byte }
{
    byte == stop || byte == SPACE || byte == NEWLINE
}
