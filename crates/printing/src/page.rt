// What is printed, line behind line, into bytes that a caller lends.

ghost use Rattle.std.specs.Prelude.{◌≤◌, length};

// Bytes that a caller lends, of any length, and how many of them are text so far.
#[derive(Debug, Drop)]
pub struct Page<'a> {
    bytes: &'a mut [u8],
    count: usize,
    ghost inside: { count ≤ length bytes.now },
}

impl<'a> Page<'a> {
    ghost use Rattle.std.specs.Prelude.{◌≡◌};

    // The first `count` bytes are text.
    pub fn new(bytes: &'a mut [u8], count: usize) -> Page<'a>
        requires { count ≤ length bytes.old }
        ensures count { result.count ≡ count }
        ensures bytes { result.bytes.now ≡ bytes.old }
        ensures same_bytes { result.bytes.ghost_name ≡ bytes.entry.ghost_name }
    {
        Page { bytes, count }
    }
}

impl Page<'_> {
    ghost use Rattle.std.specs.Prelude.{◌+◌, ◌≡◌};
    ghost use Rattle.printing.specs.Prints.{text_of, Put};

    // The text so far.
    pub fn text(&self) -> &[u8]
        ensures { result.now ≡ text_of self.now }
    {
        &self.bytes[..self.count]
    }

    // How many bytes are left for more.
    pub fn room(&self) -> usize
        ensures { self.now.count + result ≡ length self.now.bytes.now }
    {
        self.bytes.len() - self.count
    }

    // No byte is text any more. The bytes stay as they are.
    pub fn clear(&mut self)
        ensures count { self.new.count ≡ 0 }
        ensures bytes { self.new.bytes.now ≡ self.old.bytes.now }
        ensures same_bytes { self.new.bytes.ghost_name ≡ self.old.bytes.ghost_name }
    {
        self.count = 0;
    }

    pub(crate) fn put_text(&mut self, text: &[u8])
        requires { self.old.count + length text.now ≤ length self.old.bytes.now }
        ensures { Put (length text.now) self.old text.now self.new }
    {
        let end = self.count + text.len();
        let bytes = &mut *self.bytes;
        bytes[self.count..end].copy_from_slice(text);
        self.count = end;
    }
}
