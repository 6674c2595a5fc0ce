// Bytes and numbers written to an output, one behind the other.
ghost use Rattle.std.specs.Prelude.{◌≡◌, ◌<◌, [], ◌∷◌};
ghost use Rattle.text.specs.Parts.{tab};
ghost use Rattle.text.specs.Number.{decimal, two_digits, four_digits};
ghost use Rattle.text.specs.Output.{HasRoom, Appended};

use crate::TAB;
use crate::number::ZERO;

// A buffer that is filled from its start on: the bytes below `written` have been written.
#[derive(Drop)]
pub struct Output<'a> {
    pub bytes: &'a mut [u8],
    pub written: usize,
}

impl<'a> Output<'a> {
    // An output with nothing written yet.
    pub fn new(bytes: &'a mut [u8]) -> Output<'a>
        ensures same_reference { result.bytes.ghost_name ≡ bytes.entry.ghost_name }
        ensures bytes { result.bytes.now ≡ bytes.old }
        ensures written { result.written ≡ 0 }
    {
        Output { bytes, written: 0 }
    }

    // Writes one byte.
    pub fn byte(&mut self, byte: u8)
        requires { HasRoom (byte ∷ []) self.old }
        ensures { Appended (byte ∷ []) self.old self.new }
    {
        self.bytes[self.written] = byte;
        self.written += 1;
    }

    // Writes a text.
    pub fn text(&mut self, text: &[u8])
        requires { HasRoom text.now self.old }
        ensures { Appended text.now self.old self.new }
    {
        let end = self.written + text.len();
        self.bytes[self.written..end].copy_from_slice(text);
        self.written = end;
    }

    // Writes n, which is below 100, in two digits.
    fn two_digits(&mut self, n: u64)
        requires low { n < 100 }
        requires room { HasRoom (two_digits n) self.old }
        ensures { Appended (two_digits n) self.old self.new }
    {
        self.byte(ZERO + (n / 10) as u8);
        self.byte(ZERO + (n % 10) as u8);
    }

    // Writes n, which is below 10,000, in four digits.
    fn four_digits(&mut self, n: u64)
        requires low { n < 10000 }
        requires room { HasRoom (four_digits n) self.old }
        ensures { Appended (four_digits n) self.old self.new }
    {
        self.two_digits(n / 100);
        self.two_digits(n % 100);
    }

    // Writes n, which is below 10,000, in as many decimal digits as it has.
    fn short_decimal(&mut self, n: u64)
        requires low { n < 10000 }
        requires room { HasRoom (decimal n) self.old }
        ensures { Appended (decimal n) self.old self.new }
    {
        match n {
            0..10 => self.byte(ZERO + n as u8),
            10..100 => self.two_digits(n),
            100..1000 => {
                self.byte(ZERO + (n / 100) as u8);
                self.two_digits(n % 100);
            }
            _ => self.four_digits(n),
        }
    }

    // Writes n in decimal digits, four at a time.
    pub fn decimal(&mut self, n: u64)
        requires { HasRoom (decimal n) self.old }
        ensures { Appended (decimal n) self.old self.new }
    {
        if n < 10000 {
            self.short_decimal(n);
        } else {
            self.decimal(n / 10000);
            self.four_digits(n % 10000);
        }
    }

    // Writes a tab and n in decimal digits.
    pub fn field(&mut self, n: u64)
        requires { HasRoom (tab ∷ decimal n) self.old }
        ensures { Appended (tab ∷ decimal n) self.old self.new }
    {
        self.byte(TAB);
        self.decimal(n);
    }
}
