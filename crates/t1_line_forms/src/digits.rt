//! Digits.
ghost use Rattle.std.specs.Prelude.{ℕ, ◌≡◌, ◌<◌, ◌-◌, ◌^◌, ◌++◌, min, List, IsTrue, MatchBool};
ghost use Rattle.std.specs.Str.{all_ascii_digits};
ghost use Rattle.std.specs.List.{list_all};
ghost use Rattle.t1_line_forms.specs.Digits.{IsDecimal, EndsDecimal, number_of, is_hex_digit};

/// The decimal digits at the front of a text, and what follows them.
pub(crate) fn decimal_digits(text: &[u8]) -> (&[u8], &[u8])
    ensures parts { text.now ≡ result.0.now ++ result.1.now }
    ensures digits { IsTrue (all_ascii_digits result.0.now) }
    ensures ends { EndsDecimal result.1.now }
{
    for at in 0..text.len() {
        if !text[at].is_ascii_digit() {
            return text.split_at(at);
        }
    }
    (text, &[])
}

/// Whether some digits are a number without leading zeros.
pub(crate) fn is_decimal(digits: &[u8]) -> bool
    requires { IsTrue (all_ascii_digits digits.now) }
    ensures { MatchBool result (IsDecimal digits.now) (IsDecimal digits.now → ⊥) }
{
    !digits.is_empty() && (digits[0] != b'0' || digits.len() == 1)
}

/// The number of some decimal digits, or the greatest of 64 bits.
pub(crate) fn number_of(digits: &[u8]) -> usize
    ensures { result ≡ min (number_of digits.now) (2 ^ 64 - 1) }
{
    let mut number: usize = 0;
    for digit in digits {
        number = number
            .saturating_mul(10)
            .saturating_add(usize::from(digit.saturating_sub(b'0')));
    }
    number
}

pub(crate) fn are_hex_digits(digits: &[u8]) -> bool
    ensures { result ≡ list_all is_hex_digit digits.now }
{
    for digit in digits {
        if !is_hex_digit(*digit) {
            return false;
        }
    }
    true
}

fn is_hex_digit(byte: u8) -> bool
    ensures { result ≡ is_hex_digit byte }
{
    byte.is_ascii_digit() || (b'a' <= byte && byte <= b'f')
}
