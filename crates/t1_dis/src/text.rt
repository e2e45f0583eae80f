// A text that is being written.
ghost use Rattle.std.specs.Prelude.{◌≡◌, ◌<◌, ◌≤◌, ◌+◌, ◌++◌, [], ◌∷◌, length, decimal};
ghost use Rattle.t1_dis.specs.Hex.{digit_of, hex_of};
ghost use Rattle.t1_dis.specs.Names.{register_bytes, letter_of};

use arrayvec::ArrayString;
use itoa::Buffer;
use std::marker::Model;

/// A text that is being written, of at most 96 bytes.
#[derive(Drop)]
pub struct Text {
    text: ArrayString<96>,
}

impl Model for Text {
    ghost use Rattle.std.specs.Prelude.{List, ℕ};

    ghost Value = { List ℕ };

    ghost view = { λ t. t.text.bytes };
}

impl Text {
    pub fn new() -> Text
        ensures { result ≡ [] }
    {
        Text {
            text: ArrayString::new(),
        }
    }

    pub fn done(self) -> ArrayString<96>
        ensures { result.bytes ≡ self }
    {
        self.text
    }

    pub fn word(&mut self, word: &str)
        requires { length self.old + length word.now ≤ 96 }
        ensures value { self.new ≡ self.old ++ word.now }
    {
        self.text.push_str(word);
    }

    /// A byte of ASCII.
    pub fn byte(&mut self, byte: u8)
        requires ascii { byte < 128 }
        requires room { length self.old + 1 ≤ 96 }
        ensures value { self.new ≡ self.old ++ byte ∷ [] }
    {
        self.text.push(byte as char);
    }

    /// A number in decimal.
    #[tactic(auto, using(crate::proofs::Joins::decimal_short))]
    pub fn number(&mut self, number: u64)
        requires { length self.old + 20 ≤ 96 }
        ensures value { self.new ≡ self.old ++ decimal number }
        ensures short { length self.new ≤ length self.old + 20 }
    {
        let mut buffer = Buffer::new();
        self.word(buffer.format(number));
    }

    /// `%` and the name of an integer register.
    pub fn register(&mut self, r: u8)
        requires register { r < 32 }
        requires room { length self.old + 3 ≤ 96 }
        ensures value { self.new ≡ self.old ++ register_bytes r }
        ensures short { length self.new ≡ length self.old + 3 }
    {
        self.byte(b'%');
        self.byte(letter(r / 8));
        self.byte(48 + r % 8);
    }

    /// The lowest digits of a number in hexadecimal.
    #[tactic(auto, unfolding(crate::specs::Hex::hex_of))]
    pub fn hex(&mut self, digits: u32, number: u64)
        requires room { length self.old + digits ≤ 96 }
        requires most { digits ≤ 16 }
        ensures value { self.new ≡ self.old ++ hex_of digits number }
        ensures short { length self.new ≤ length self.old + digits }
    {
        for place in (0..digits).rev() {
            self.byte(digit((number >> (4 * place)) % 16));
        }
    }
}

#[tactic(auto, unfolding(crate::specs::Names::letter_of))]
fn letter(bank: u8) -> u8
    ensures value { result ≡ letter_of bank }
    ensures ascii { result < 128 }
{
    match bank {
        0 => b'g',
        1 => b'o',
        2 => b'l',
        _ => b'i',
    }
}

fn digit(value: u64) -> u8
    requires { value < 16 }
    ensures value { result ≡ digit_of value }
    ensures ascii { result < 128 }
{
    if value < 10 {
        48 + value as u8
    } else {
        87 + value as u8
    }
}
