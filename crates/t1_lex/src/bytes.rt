// The bytes of assembly text.
ghost use Rattle.std.specs.Prelude.{◌≡◌, ◌≤◌};
ghost use Rattle.t1_lex.specs.Bytes.{is_digit, is_letter, starts_name, is_name_byte, is_word_byte, is_blank, is_mark, is_escape, digit_value};

#[tactic(auto, unfolding(crate::specs::Bytes::is_digit))]
pub fn digit(b: u8) -> bool
    ensures { result ≡ is_digit b }
{
    b >= 48 && b <= 57
}

#[tactic(auto, unfolding(crate::specs::Bytes::is_letter))]
pub fn letter(b: u8) -> bool
    ensures { result ≡ is_letter b }
{
    (b >= 65 && b <= 90) || (b >= 97 && b <= 122)
}

#[tactic(auto, unfolding(crate::specs::Bytes::starts_name))]
pub fn name_start(b: u8) -> bool
    ensures { result ≡ starts_name b }
{
    letter(b) || b == b'_' || b == b'.' || b == b'$'
}

#[tactic(auto, unfolding(crate::specs::Bytes::is_name_byte))]
pub fn name_byte(b: u8) -> bool
    ensures { result ≡ is_name_byte b }
{
    name_start(b) || digit(b)
}

#[tactic(auto, unfolding(crate::specs::Bytes::is_word_byte))]
pub fn word_byte(b: u8) -> bool
    ensures { result ≡ is_word_byte b }
{
    letter(b) || digit(b)
}

#[tactic(auto, unfolding(crate::specs::Bytes::is_blank))]
pub fn blank(b: u8) -> bool
    ensures { result ≡ is_blank b }
{
    b == b' ' || b == b'\t' || b == b'\r'
}

#[tactic(auto, unfolding(crate::specs::Bytes::is_mark))]
pub fn mark(b: u8) -> bool
    ensures { result ≡ is_mark b }
{
    matches!(
        b,
        b',' | b':' | b'[' | b']' | b'(' | b')' | b'+' | b'-' | b'=' | b'|'
    )
}

#[tactic(auto, unfolding(crate::specs::Bytes::is_escape))]
pub fn escape(b: u8) -> bool
    ensures { result ≡ is_escape b }
{
    matches!(b, b'n' | b't' | b'0' | b'\\' | b'"')
}

#[tactic(auto, unfolding(crate::specs::Bytes::digit_value))]
pub fn value_of_digit(b: u8) -> u64
    ensures value { result ≡ digit_value b }
    ensures small { result ≤ 99 }
{
    match b {
        48..=57 => b as u64 - 48,
        97..=102 => b as u64 - 87,
        65..=70 => b as u64 - 55,
        _ => 99,
    }
}
