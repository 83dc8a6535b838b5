ghost use Rattle.std.specs.Prelude.{◌≡◌, ◌<◌, ◌≤◌, ◌⊎◌, ◌^◌, length};
ghost use Rattle.hpack_codes.specs.Reader.{left_of, IsSound, IsWindow, IsLast, Reads};
ghost use Rattle.hpack_codes.specs.Huffman.{padding_of};

use crate::tables::{EOS, LONGEST, first_len, symbol_of};

/// What stands next in a Huffman string.
#[derive(Drop)]
pub enum Code {
    /// The code of an octet.
    Octet(u8),
    /// The code of EOS.
    Eos,
    /// At most seven ones, to the end.
    Padding,
    /// Something else that isn't a whole code.
    BadPadding,
}

/// Reads codes from bytes.
#[derive(Drop)]
pub struct BitReader {
    /// The bits that were taken from the bytes and not yet read.
    pub kept: u64,
    /// How many they are.
    pub count: u32,
    /// The place behind the bytes taken.
    pub at: usize,
}

impl BitReader {
    /// Nothing was taken yet.
    pub fn new() -> BitReader
        ensures { result ≡ record { kept = 0; count = 0; at = 0 } }
    {
        BitReader {
            kept: 0,
            count: 0,
            at: 0,
        }
    }

    /// Takes bytes until thirty bits are kept, or the bytes end.
    fn fill(&mut self, bytes: &[u8])
        requires { IsSound self.old bytes.now }
        ensures sound { IsSound self.new bytes.now }
        ensures same { left_of self.new bytes.now ≡ left_of self.old bytes.now }
        ensures full { (30 ≤ self.new.count) ⊎ (self.new.at ≡ length bytes.now) }
    {
        while self.count < LONGEST && self.at < bytes.len() {
            self.kept = self.kept * 256 + u64::from(bytes[self.at]);
            self.count += 8;
            self.at += 1;
        }
    }

    /// The next thirty bits, where fewer are kept with ones behind them.
    fn window(&self) -> u32
        requires few { self.now.count ≤ 37 }
        requires kept { self.now.kept < 2 ^ self.now.count }
        ensures { IsWindow self.now.count self.now.kept result }
    {
        if self.count >= LONGEST {
            (self.kept >> (self.count - LONGEST)) as u32
        } else {
            (((self.kept + 1) << (LONGEST - self.count)) - 1) as u32
        }
    }

    /// What the kept bits are where no code begins them and no byte is left.
    fn last(&self) -> Code
        requires few { self.now.count ≤ 30 }
        requires kept { self.now.kept < 2 ^ self.now.count }
        ensures { IsLast result (padding_of self.now.count self.now.kept) }
    {
        if self.count <= 7 && self.kept + 1 == 1 << self.count {
            Code::Padding
        } else {
            Code::BadPadding
        }
    }

    /// Reads the next code.
    pub fn next(&mut self, bytes: &[u8]) -> Code
        requires { IsSound self.old bytes.now }
        ensures sound { IsSound self.new bytes.now }
        ensures reads { Reads result (left_of self.old bytes.now) (left_of self.new bytes.now) }
    {
        self.fill(bytes);
        let len = first_len(self.window());
        if len > self.count {
            return self.last();
        }
        let rest = self.count - len;
        let symbol = symbol_of(len, (self.kept >> rest) as u32);
        if symbol == EOS {
            return Code::Eos;
        }
        self.kept %= 1 << rest;
        self.count = rest;
        Code::Octet(symbol as u8)
    }
}
