// A pen writes bytes to a buffer that is lent, from its front on.
ghost use Rattle.std.specs.Prelude.{◌≡◌, [], ◌∷◌, length, decimal};
ghost use Rattle.survey.specs.Pens.{HasRoom, Writes};

// The buffer, and how many bytes at its front are written. Memory is lent, by a rule of the project, so this is no `Vec`.
#[derive(Drop)]
pub(crate) struct Pen<'a> {
    pub(crate) buffer: &'a mut [u8],
    pub(crate) at: usize,
}

impl<'a> Pen<'a> {
    // Writes one byte. How much room a call needs differs from call to call, so each asks for its own.
    pub(crate) fn put(&mut self, byte: u8)
        requires { HasRoom 1 self.old }
        ensures { Writes self.old (byte ∷ []) self.new }
    {
        let at = self.at;
        self.buffer[at] = byte;
        self.at = at + 1;
    }

    // Writes a text.
    pub(crate) fn put_text(&mut self, text: &[u8])
        requires { HasRoom (length text.now) self.old }
        ensures { Writes self.old text.now self.new }
    {
        let start = self.at;
        let end = start + text.len();
        let buffer = &mut *self.buffer;
        buffer[start..end].copy_from_slice(text);
        self.at = end;
    }

    // Writes a number by its digits. A `write!` would do it too, but no contract says that it succeeds, and drawing may not fail here.
    pub(crate) fn put_number(&mut self, number: u16)
        requires { HasRoom (length (decimal number)) self.old }
        ensures { Writes self.old (decimal number) self.new }
    {
        if number >= 10 {
            self.put_number(number / 10);
        }
        self.put(b'0' + (number % 10) as u8);
    }
}
