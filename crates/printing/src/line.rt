// A line as it is made, from its end to its beginning, so that no number's digits are counted first.

ghost use Rattle.std.specs.Prelude.{◌+◌, ◌*◌, ◌≤◌, ◌≡◌, [], ◌++◌, length};
ghost use Rattle.printing.specs.Printed.{field, numbers_line, field_bytes, line_bytes};

use crate::LINE_BYTES;
use characters::{NEWLINE, SPACE};
use std::marker::Model;

// What stands of it are the bytes from `start` on.
#[derive(Drop)]
pub(crate) struct Line {
    bytes: [u8; LINE_BYTES],
    start: usize,
}

impl Model for Line {
    ghost use Rattle.std.specs.Prelude.{ℕ, ◌≤◌, List, drop};
    ghost use Rattle.printing.specs.Printed.{line_bytes};

    ghost Value = { List ℕ };

    ghost view = { λ l. drop l.start l.bytes };

    ghost invariant = { λ l. l.start ≤ line_bytes };
}

impl Line {
    pub(crate) fn new() -> Line
        ensures { result ≡ [] }
    {
        Line {
            bytes: [0; LINE_BYTES],
            start: LINE_BYTES,
        }
    }

    pub(crate) fn bytes(&self) -> &[u8]
        ensures { result.now ≡ self.now }
    {
        &self.bytes[self.start..]
    }

    // A number, and the byte behind it.
    pub(crate) fn prepend(&mut self, number: u32, after: u8)
        requires { length self.old + field_bytes ≤ line_bytes }
        ensures text { self.new ≡ field number after ++ self.old }
        ensures size { length self.new ≤ length self.old + field_bytes }
    {
        let end = self.start - 1;
        self.bytes[end] = after;
        self.start = itoa::write_digits(u64::from(number), &mut self.bytes, end);
    }

    // Numbers one space apart, and a newline behind the last.
    pub(crate) fn prepend_all(&mut self, numbers: &[u32])
        requires { length self.old + length numbers.now * field_bytes ≤ line_bytes }
        ensures text { self.new ≡ numbers_line numbers.now ++ self.old }
        ensures size { length self.new ≤ length self.old + length numbers.now * field_bytes }
    {
        if let [init @ .., last] = numbers {
            self.prepend(*last, NEWLINE);
            for number in init.iter().rev() {
                self.prepend(*number, SPACE);
            }
        }
    }
}
