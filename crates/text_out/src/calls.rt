//! The calls of a text, apart from the struct, whose ghost field may not see the definitions that name it.

ghost use Rattle.std.specs.Prelude.{◌≡◌, ◌++◌, decimal};
ghost use Rattle.text_out.specs.Wrote.{Writes};

use crate::TextOut;

impl<'a> TextOut<'a> {
    /// No text yet.
    pub fn new(places: &'a mut [u8]) -> TextOut<'a>
        ensures same { result.places.ghost_name ≡ places.entry.ghost_name }
        ensures places { result.places.now ≡ places.old }
        ensures empty { result.len ≡ 0 }
    {
        TextOut { places, len: 0 }
    }

    /// Writes a text, as far as there are places.
    pub fn put(&mut self, text: &[u8])
        ensures { Writes self.old self.new text.now }
    {
        let count = text.len().min(self.places.len() - self.len);
        let end = self.len + count;
        self.places[self.len..end].copy_from_slice(&text[..count]);
        self.len = end;
    }

    // Writes a number in decimal likewise.
    fn put_decimal(&mut self, number: usize)
        ensures { Writes self.old self.new (decimal number) }
    {
        let mut digits = itoa::Buffer::new();
        self.put(digits.format(number).as_bytes());
    }

    /// Writes a number in decimal and the text after it likewise.
    pub fn put_number(&mut self, number: usize, after: &[u8])
        ensures { Writes self.old self.new (decimal number ++ after.now) }
    {
        self.put_decimal(number);
        self.put(after);
    }

    /// Gives the memory back, and answers how many bytes of it are text.
    pub fn finish(self) -> usize
        ensures places { self.exit.0.now ≡ self.entry.places.now }
        ensures value { result ≡ self.entry.len }
    {
        let TextOut { len, .. } = self;
        len
    }
}
