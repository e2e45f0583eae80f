//! Fields of a line, taken one after another.
ghost use Rattle.std.specs.Prelude.{ℕ, ◌≡◌, ◌<◌, ◌≤◌, ◌+◌, ◌*◌, ◌-◌, ◌^◌, ◌⊎◌, ◌++◌, List, length, take, drop, get_or, decimal, true, false, IsTrue, IfSome, IfNone, MatchBool, MatchOption};
ghost use Rattle.t1_take.specs.Taken.{Reads, Takes, EndsDigits, Leaves, Finds};
ghost use Rattle.t1_take.specs.Digits.{AreDigits};
ghost use Rattle.t1_log.specs.Hex.{digit_of, hex_of};

use itoa::Buffer;

/// A place in a text, and whether what was taken so far is good: of its form and in its ranges.
#[derive(Clone, Copy, Debug, PartialEq, Eq)]
pub struct Cursor {
    /// The index of the next byte.
    pub at: usize,
    /// Whether all that was taken is good.
    pub good: bool,
}

impl Cursor {
    /// A cursor at this index of a text, of which nothing was taken yet.
    pub fn new(at: usize) -> Cursor
        ensures { result ≡ record { at = at; good = true } }
    {
        Cursor { at, good: true }
    }

    /// Whether what was taken so far is good: of its form and in its ranges.
    pub fn is_good(&self) -> bool
        ensures { result ≡ self.now.good }
    {
        self.good
    }

    /// What was taken is not good: it has another form, or a value is out of its range.
    pub fn refuse(&mut self)
        ensures { self.new ≡ record { at = self.old.at; good = false } }
    {
        self.good = false;
    }

    /// The next byte, 0 at the end of the text.
    pub fn peek(&self, text: &[u8]) -> u8
        ensures { result ≡ get_or text.now self.now.at 0 }
    {
        if self.at < text.len() {
            text[self.at]
        } else {
            0
        }
    }

    /// Takes a word if it stands next, and answers whether it does. Where it does not, the cursor stays
    /// as it is.
    pub fn takes(&mut self, text: &[u8], word: &[u8]) -> bool
        ensures cases { MatchBool result (Takes text.now self.old self.new word.now) (self.new ≡ self.old) }
        ensures stands { IsTrue result → Reads text.now self.old.at self.new.at word.now }
        ensures moves { (self.new.at ≡ self.old.at) ⊎ (self.new.at ≡ self.old.at + length word.now) }
        ensures kept { self.new.good ≡ self.old.good }
        ensures finds { (rest : List ℕ) → 0 < length word.now → drop self.old.at text.now ≡ word.now ++ rest → IsTrue result × Leaves text.now self.old self.new rest }
    {
        if stands(text, self.at, word) {
            self.at += word.len();
            true
        } else {
            false
        }
    }

    /// Takes a word. Where another stands, the cursor is not good and stays in its place.
    pub fn word(&mut self, text: &[u8], word: &[u8])
        ensures takes { Takes text.now self.old self.new word.now }
        ensures finds { 0 < length word.now → Finds text.now self.old self.new word.now }
        ensures moves { (self.new.at ≡ self.old.at) ⊎ (self.new.at ≡ self.old.at + length word.now) }
    {
        if !self.takes(text, word) {
            self.refuse();
        }
    }

    /// Takes this number in decimal digits. Where another word stands, the cursor is not good.
    pub fn exactly(&mut self, text: &[u8], number: u64)
        ensures takes { Takes text.now self.old self.new (decimal number) }
        ensures finds { Finds text.now self.old self.new (decimal number) }
    {
        let mut buffer = Buffer::new();
        self.word(text, buffer.format(number).as_bytes());
    }

    /// Takes a decimal number without leading zeros. Where none stands, the cursor is not good, and 0 is
    /// answered; where it is above 4294967295, the cursor is not good, and 4294967295 stands for it.
    pub fn number(&mut self, text: &[u8]) -> u32
        ensures takes { Takes text.now self.old self.new (decimal result) }
        ensures finds { (n : ℕ) (rest : List ℕ) → n < 2 ^ 32 → EndsDigits rest → drop self.old.at text.now ≡ decimal n ++ rest → (result ≡ n) × Leaves text.now self.old self.new rest }
    {
        let start = self.at;
        let (value, end) = digits(text, start);
        if !is_canonical(text, start, end) {
            self.refuse();
            return 0;
        }
        self.at = end;
        if value > 4_294_967_295 {
            self.refuse();
            return 4_294_967_295;
        }
        value as u32
    }

    /// Takes so many hexadecimal digits in small letters, at most 16. Where others stand, the cursor is
    /// not good, and 0 is answered. Of more than 16 digits the low ones count.
    pub fn hex(&mut self, text: &[u8], digits: usize) -> u64
        ensures fits { digits ≤ 16 → result < 2 ^ (4 * digits) }
        ensures takes { digits ≤ 16 → Takes text.now self.old self.new (hex_of digits result) }
        ensures finds { (value : ℕ) (rest : List ℕ) → digits ≤ 16 → value < 2 ^ (4 * digits) → drop self.old.at text.now ≡ hex_of digits value ++ rest → (result ≡ value) × Leaves text.now self.old self.new rest }
    {
        let start = self.at;
        if digits > text.len().saturating_sub(start) {
            self.refuse();
            return 0;
        }
        match hex_at(text, start, digits) {
            Some(value) => {
                self.at = start + digits;
                value
            }
            None => {
                self.refuse();
                0
            }
        }
    }
}

/// Whether a word stands at a place.
fn stands(text: &[u8], at: usize, word: &[u8]) -> bool
    ensures stands { IsTrue result → Reads text.now at (at + length word.now) word.now }
    ensures within { IsTrue result → at + length word.now ≤ length text.now }
    ensures finds { (rest : List ℕ) → 0 < length word.now → drop at text.now ≡ word.now ++ rest → IsTrue result }
{
    if at > text.len() {
        return false;
    }
    match after(text.split_at(at).1, word) {
        Some(_rest) => true,
        None => false,
    }
}

/// What follows a word, if a text begins with it.
fn after<'a>(text: &'a [u8], word: &[u8]) -> Option<&'a [u8]>
    ensures { MatchOption result ((rest : List ℕ) → text.now ≡ word.now ++ rest → ⊥) (λ rest. text.now ≡ word.now ++ rest.now) }
{
    text.strip_prefix(word)
}

/// The number of the decimal digits from a place on, or the greatest of 64 bits, and where they end.
fn digits(text: &[u8], start: usize) -> (u64, usize)
    ensures after { start ≤ result.1 }
    ensures digits { AreDigits text.now start result.1 result.0 }
    ensures ends { EndsDigits (drop result.1 text.now) }
    ensures within { start ≤ length text.now → result.1 ≤ length text.now }
{
    let mut value: u64 = 0;
    for at in start..text.len() {
        if !text[at].is_ascii_digit() {
            return (value, at);
        }
        value = value
            .saturating_mul(10)
            .saturating_add(u64::from(text[at].saturating_sub(b'0')));
    }
    (value, text.len().max(start))
}

/// Whether there are digits there, and no leading zero.
fn is_canonical(text: &[u8], start: usize, end: usize) -> bool
    ensures finds { start < end → start < length text.now → ((get_or text.now start 0 ≡ 48 → ⊥) ⊎ (end - start ≡ 1)) → IsTrue result }
    ensures is { IsTrue result → (start < end) × (start < length text.now) × ((get_or text.now start 0 ≡ 48 → ⊥) ⊎ (end - start ≡ 1)) }
{
    if end <= start || start >= text.len() {
        return false;
    }
    text[start] != b'0' || end - start == 1
}

/// The number of so many hexadecimal digits from a place on.
fn hex_at(text: &[u8], at: usize, digits: usize) -> Option<u64>
    requires { digits ≤ length text.now - at }
    ensures some { IfSome result (λ value. digits ≤ 16 → (value < 2 ^ (4 * digits)) × (take digits (drop at text.now) ≡ hex_of digits value)) }
    ensures none { IfNone result ((value : ℕ) → take digits (drop at text.now) ≡ hex_of digits value → ⊥) }
{
    let mut value: u64 = 0;
    for place in 0..digits {
        match digit_value(text[at + place]) {
            Some(digit) => value = value.wrapping_mul(16).wrapping_add(u64::from(digit)),
            None => return None,
        }
    }
    Some(value)
}

/// The value of a hexadecimal digit in small letters.
fn digit_value(byte: u8) -> Option<u8>
    ensures some { IfSome result (λ digit. (digit < 16) × (byte ≡ digit_of digit)) }
    ensures none { IfNone result ((digit : ℕ) → digit < 16 → byte ≡ digit_of digit → ⊥) }
{
    if byte.is_ascii_digit() {
        Some(byte - b'0')
    } else if b'a' <= byte && byte <= b'f' {
        Some(byte - b'a' + 10)
    } else {
        None
    }
}
