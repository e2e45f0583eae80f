//! A line of text.
ghost use Rattle.std.specs.Prelude.{◌≡◌, ◌+◌, ◌*◌, ◌<◌, ◌≤◌, ◌^◌, ◌++◌, ◌∷◌, [], length, decimal};
ghost use Rattle.t1_log.specs.Hex.{digit_of, hex_of, hex_of_bytes};

use arrayvec::ArrayVec;
use itoa::Buffer;
use std::marker::Model;

/// A line of at most `CAP` bytes that is being made, which takes no memory. A contract sees its
/// bytes.
#[derive(Drop)]
pub struct Line<const CAP: usize> {
    bytes: ArrayVec<u8, CAP>,
}

impl<const CAP: usize> Model for Line<CAP> {
    ghost use Rattle.std.specs.Prelude.{ℕ, List};

    ghost Value = { List ℕ };

    ghost view = { λ line. line.bytes.items };
}

impl<const CAP: usize> Line<CAP> {
    /// An empty line.
    pub fn new() -> Line<CAP>
        ensures { result ≡ [] }
    {
        Line {
            bytes: ArrayVec::new(),
        }
    }

    pub fn as_slice(&self) -> &[u8]
        ensures { result.now ≡ self.now }
    {
        self.bytes.as_slice()
    }

    /// Appends a byte.
    pub(crate) fn byte(&mut self, byte: u8)
        requires { length self.old + 1 ≤ CAP }
        ensures value { self.new ≡ self.old ++ byte ∷ [] }
        ensures len { length self.new ≡ length self.old + 1 }
    {
        self.bytes.push(byte);
    }

    /// Appends a text as it is.
    pub fn text(&mut self, text: &str)
        requires { length self.old + length text.now ≤ CAP }
        ensures value { self.new ≡ self.old ++ text.now }
        ensures len { length self.new ≡ length self.old + length text.now }
    {
        let _ = self.bytes.try_extend_from_slice(text.as_bytes());
    }

    /// Appends a number in decimal digits.
    #[tactic(auto, using(crate::proofs::Lengths::decimal_short, crate::proofs::Lengths::decimal_digit))]
    pub fn decimal(&mut self, number: u64)
        requires { length self.old + 20 ≤ CAP }
        ensures value { self.new ≡ self.old ++ decimal number }
        ensures len { length self.new ≤ length self.old + 20 }
    {
        if number < 10 {
            self.byte(b'0' + number as u8);
            return;
        }
        let mut buffer = Buffer::new();
        let digits = buffer.format(number);
        self.text(digits);
    }

    /// Appends a number below 256 in decimal digits.
    #[tactic(auto, using(crate::proofs::Lengths::decimal_byte, crate::proofs::Lengths::decimal_digit))]
    pub fn short(&mut self, number: u8)
        requires { length self.old + 3 ≤ CAP }
        ensures value { self.new ≡ self.old ++ decimal number }
        ensures len { length self.new ≤ length self.old + 3 }
    {
        if number < 10 {
            self.byte(b'0' + number);
            return;
        }
        let mut buffer = Buffer::new();
        let digits = buffer.format(number);
        self.text(digits);
    }

    /// Appends so many low hexadecimal digits of a number, in small letters.
    #[tactic(auto, unfolding(crate::specs::Hex::hex_of))]
    pub fn hex(&mut self, digits: u32, number: u64)
        requires room { length self.old + digits ≤ CAP }
        requires most { digits ≤ 16 }
        ensures value { self.new ≡ self.old ++ hex_of digits number }
        ensures len { length self.new ≡ length self.old + digits }
    {
        for place in (0..digits).rev() {
            self.byte(digit((number >> (4 * place)) % 16));
        }
    }

    /// Appends bytes one after another, each in two hexadecimal digits.
    #[tactic(auto, unfolding(crate::specs::Hex::hex_of_bytes))]
    pub fn hex_bytes(&mut self, bytes: &[u8])
        requires { length self.old + 2 * length bytes.now ≤ CAP }
        ensures value { self.new ≡ self.old ++ hex_of_bytes bytes.now }
        ensures len { length self.new ≡ length self.old + 2 * length bytes.now }
    {
        for byte in bytes {
            self.hex(2, u64::from(*byte));
        }
    }
}

fn digit(value: u64) -> u8
    requires { value < 16 }
    ensures { result ≡ digit_of value }
{
    if value < 10 {
        b'0' + value as u8
    } else {
        b'a' - 10 + value as u8
    }
}
