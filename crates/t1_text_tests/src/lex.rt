//! Texts and their tokens, and the places of bytes at which none starts.

use std::test::Fail;
use t1_lex::TokenKind::{Hash, LineEnd, Name, Number, Percent, Punct, Text};
use t1_lex::{LexError, TokenKind, lex, lex_into, line_run};

/// A token: its place, its end, its line and its kind.
type Expected = (u32, u32, u32, TokenKind);

const TOKENS: &[(&[u8], &[Expected])] = &[
    (b"", &[]),
    (b" \t\r", &[]),
    (b"! a comment with any byte \x80 @", &[]),
    (b"a1_.$", &[(0, 5, 1, Name)]),
    (b". .5", &[(0, 1, 1, Name), (2, 4, 1, Name)]),
    (
        b"$x _ Z",
        &[(0, 2, 1, Name), (3, 4, 1, Name), (5, 6, 1, Name)],
    ),
    (b"0", &[(0, 1, 1, Number(0))]),
    (
        b"18446744073709551615",
        &[(0, 20, 1, Number(18_446_744_073_709_551_615))],
    ),
    (
        b"0xfFfFfFfFfFfFfFfF",
        &[(0, 18, 1, Number(18_446_744_073_709_551_615))],
    ),
    (b"0x00", &[(0, 4, 1, Number(0))]),
    (b"1_a", &[(0, 1, 1, Number(1)), (1, 3, 1, Name)]),
    (b"1.", &[(0, 1, 1, Number(1)), (1, 2, 1, Name)]),
    (
        b"1-2",
        &[
            (0, 1, 1, Number(1)),
            (1, 2, 1, Punct(b'-')),
            (2, 3, 1, Number(2)),
        ],
    ),
    (
        b"%g1,#Sync",
        &[(0, 3, 1, Percent), (3, 4, 1, Punct(b',')), (4, 9, 1, Hash)],
    ),
    (b"%.#.", &[(0, 2, 1, Percent), (2, 4, 1, Hash)]),
    (b"\"a b!\\n\\t\\0\\\\\\\"\x80\"", &[(0, 17, 1, Text)]),
    (b"\"\"", &[(0, 2, 1, Text)]),
    (
        b"a:\n ! c\nb",
        &[
            (0, 1, 1, Name),
            (1, 2, 1, Punct(b':')),
            (2, 3, 1, LineEnd),
            (7, 8, 2, LineEnd),
            (8, 9, 3, Name),
        ],
    ),
];

/// Texts with the place and the line of the first byte at which no token starts.
const FAULTS: &[(&[u8], u32, u32)] = &[
    (b"@", 0, 1),
    (b"a\n\n b @", 6, 3),
    (b"1a", 0, 1),
    (b"01", 0, 1),
    (b"0x", 0, 1),
    (b"0xg", 0, 1),
    (b"0X1", 0, 1),
    (b"18446744073709551616", 0, 1),
    (b"0x10000000000000000", 0, 1),
    (b"a %", 2, 1),
    (b"%1", 0, 1),
    (b"# Sync", 0, 1),
    (b"a \"bc", 2, 1),
    (b"\"a\n\"", 0, 1),
    (b"\"\\x\"", 0, 1),
    (b"\"\\", 0, 1),
    (b"a;", 1, 1),
    (b"\x80", 0, 1),
];

#[test]
fn texts_have_these_tokens(rt: HostRuntime) -> Result<(), Fail> {
    let mut tokens = Vec::new(rt.alloc());
    for (text, expected) in TOKENS {
        assert!(rt; text.len() <= 64);
        lex_into(&mut tokens, text)?;
        assert_eq!(rt; tokens.len(), expected.len(), "in {text:?}");
        for (token, (start, end, line, kind)) in tokens.as_slice().iter().zip(expected.iter()) {
            assert_eq!(rt; token.start, *start, "in {text:?}");
            assert_eq!(rt; token.end, *end, "in {text:?}");
            assert_eq!(rt; token.line, *line, "in {text:?}");
            assert_eq!(rt; token.kind, *kind, "in {text:?}");
        }
    }
    Ok(())
}

#[test]
fn bytes_without_a_token_are_named(rt: HostRuntime) -> Result<(), Fail> {
    for (text, at, line) in FAULTS {
        assert!(rt; text.len() <= 64);
        let found = match lex(rt.alloc(), text) {
            Ok(_) => None,
            Err(error) => Some(error),
        };
        let expected = LexError::BadByte {
            at: *at,
            line: *line,
        };
        assert_eq!(rt; found, Some(expected), "in {text:?}");
    }
    assert_eq!(rt; line_run(b"ab\nc"), 2);
    Ok(())
}
