// Digits, fields and bytes, put into a buffer.
ghost use Rattle.std.specs.Prelude.{◌≡◌, [], ◌∷◌, ◌++◌, ◌+◌, ◌≤◌, length};
ghost use Rattle.text.specs.Numerals.{hex, decimal};
ghost use Rattle.text.specs.Lines.{field_wide};

use crate::hex::hex_glyph;

// A buffer, and how far it is written.
#[derive(Drop)]
pub struct Writer<'a> {
    pub out: &'a mut [u8],
    pub at: usize,
}

impl<'a> Writer<'a> {
    ghost use Rattle.text.specs.Put.{Puts};

    // Nothing is written.
    pub fn new(out: &'a mut [u8]) -> Writer<'a>
        ensures same_buffer { result.out.ghost_name ≡ out.entry.ghost_name }
        ensures unwritten { result.out.now ≡ out.old }
        ensures at_start { result.at ≡ 0 }
    {
        Writer { out, at: 0 }
    }

    // A byte.
    pub fn byte(&mut self, b: u8)
        requires { self.old.at + 1 ≤ length self.old.out.now }
        ensures { Puts (b ∷ []) self.old self.new }
    {
        self.out[self.at] = b;
        self.at += 1;
    }

    // Bytes.
    pub fn bytes(&mut self, s: &[u8])
        requires { self.old.at + length s.now ≤ length self.old.out.now }
        ensures { Puts s.now self.old self.new }
    {
        let end = self.at + s.len();
        self.out[self.at..end].copy_from_slice(s);
        self.at = end;
    }

    // The sixteen digits of v, and a byte after them.
    pub fn field(&mut self, v: u64, end: u8)
        requires { self.old.at + field_wide ≤ length self.old.out.now }
        ensures { Puts (hex v ++ end ∷ []) self.old self.new }
    {
        for k in 0..16usize {
            self.byte(hex_glyph((v >> (4 * (15 - k))) % 16));
        }
        self.byte(end);
    }

    // The decimal digits of v.
    pub fn decimal(&mut self, v: u64)
        requires { self.old.at + length (decimal v) ≤ length self.old.out.now }
        ensures { Puts (decimal v) self.old self.new }
    {
        if v >= 10 {
            self.decimal(v / 10);
        }
        self.byte(b'0' + (v % 10) as u8);
    }
}
