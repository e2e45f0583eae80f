// The names of mnemonics, registers and directives.
ghost use Rattle.std.specs.Prelude.{◌≡◌, ◌<◌, ◌≤◌, IfSome, option_map};
ghost use Rattle.t1_form.specs.Names.{named, seen_rows, condition_names, register_condition_names, state_names, privileged_names, barrier_names, directive_names, bank_of, register_of, behind, capped_from, capped, state_of, is_known_percent};

use crate::directive::{Directive, Width};

/// The row of a name.
pub fn find<T: Copy>(name: &[u8], rows: &[(&[u8], T)]) -> Option<T>
    ensures { result ≡ named name.now (seen_rows rows.now) }
{
    for row in rows {
        if name == row.0 {
            return Some(row.1);
        }
    }
    None
}

fn condition_rows() -> &'static [(&'static [u8], u8)]
    ensures { seen_rows result.now ≡ condition_names }
{
    &[
        (b"n", 0),
        (b"e", 1),
        (b"le", 2),
        (b"l", 3),
        (b"leu", 4),
        (b"cs", 5),
        (b"neg", 6),
        (b"vs", 7),
        (b"a", 8),
        (b"ne", 9),
        (b"g", 10),
        (b"ge", 11),
        (b"gu", 12),
        (b"cc", 13),
        (b"pos", 14),
        (b"vc", 15),
    ]
}

/// A condition.
pub fn condition(name: &[u8]) -> Option<u8>
    ensures { result ≡ named name.now condition_names }
{
    find(name, condition_rows())
}

fn register_condition_rows() -> &'static [(&'static [u8], u8)]
    ensures { seen_rows result.now ≡ register_condition_names }
{
    &[
        (b"z", 1),
        (b"lez", 2),
        (b"lz", 3),
        (b"nz", 5),
        (b"gz", 6),
        (b"gez", 7),
    ]
}

/// A condition of a register.
pub fn register_condition(name: &[u8]) -> Option<u8>
    ensures { result ≡ named name.now register_condition_names }
{
    find(name, register_condition_rows())
}

fn named_state_rows() -> &'static [(&'static [u8], u8)]
    ensures { seen_rows result.now ≡ state_names }
{
    &[
        (b"%y", 0),
        (b"%ccr", 2),
        (b"%asi", 3),
        (b"%tick", 4),
        (b"%pc", 5),
        (b"%fprs", 6),
        (b"%set_softint", 20),
        (b"%clear_softint", 21),
        (b"%softint", 22),
    ]
}

/// An ancillary state register.
fn named_state(name: &[u8]) -> Option<u8>
    ensures { result ≡ named name.now state_names }
{
    find(name, named_state_rows())
}

fn privileged_rows() -> &'static [(&'static [u8], u8)]
    ensures { seen_rows result.now ≡ privileged_names }
{
    &[
        (b"%tpc", 0),
        (b"%tnpc", 1),
        (b"%tstate", 2),
        (b"%tt", 3),
        (b"%tick", 4),
        (b"%tba", 5),
        (b"%pstate", 6),
        (b"%tl", 7),
        (b"%pil", 8),
        (b"%cwp", 9),
        (b"%cansave", 10),
        (b"%canrestore", 11),
        (b"%cleanwin", 12),
        (b"%otherwin", 13),
        (b"%wstate", 14),
        (b"%gl", 16),
    ]
}

/// A privileged register.
pub fn privileged(name: &[u8]) -> Option<u8>
    ensures { result ≡ named name.now privileged_names }
{
    find(name, privileged_rows())
}

fn barrier_rows() -> &'static [(&'static [u8], u8)]
    ensures { seen_rows result.now ≡ barrier_names }
{
    &[
        (b"#LoadLoad", 1),
        (b"#StoreLoad", 2),
        (b"#LoadStore", 4),
        (b"#StoreStore", 8),
        (b"#Lookaside", 16),
        (b"#MemIssue", 32),
        (b"#Sync", 64),
    ]
}

/// What a barrier orders.
pub fn barrier(name: &[u8]) -> Option<u8>
    ensures { result ≡ named name.now barrier_names }
{
    find(name, barrier_rows())
}

fn directive_rows() -> &'static [(&'static [u8], Directive)]
    ensures { seen_rows result.now ≡ directive_names }
{
    &[
        (b".org", Directive::Org),
        (b".skip", Directive::Skip),
        (b".align", Directive::Align),
        (b".byte", Directive::Numbers(Width::Byte)),
        (b".half", Directive::Numbers(Width::Half)),
        (b".word", Directive::Numbers(Width::Word)),
        (b".xword", Directive::Numbers(Width::Xword)),
        (b".ascii", Directive::Text { zero: false }),
        (b".asciz", Directive::Text { zero: true }),
        (b".text", Directive::Section),
        (b".global", Directive::Global),
    ]
}

/// A directive.
pub fn directive(name: &[u8]) -> Option<Directive>
    ensures { result ≡ named name.now directive_names }
{
    find(name, directive_rows())
}

#[tactic(auto, unfolding(crate::specs::Names::bank_of))]
fn bank(letter: u8) -> Option<u8>
    ensures value { result ≡ bank_of letter }
    ensures small { IfSome result (λ n. n ≤ 24) }
{
    match letter {
        b'g' => Some(0),
        b'o' => Some(8),
        b'l' => Some(16),
        b'i' => Some(24),
        _ => None,
    }
}

/// The register of a name with its `%`.
#[tactic(auto, unfolding(crate::specs::Names::register_of, crate::specs::Names::in_bank))]
pub fn register(name: &[u8]) -> Option<u8>
    ensures value { result ≡ register_of name.now }
    ensures small { IfSome result (λ r. r < 32) }
{
    match name {
        [_, b's', b'p'] => Some(14),
        [_, b'f', b'p'] => Some(30),
        [_, letter, digit] => {
            let first = bank(*letter)?;
            if *digit >= 48 && *digit <= 55 {
                Some(first + (*digit - 48))
            } else {
                None
            }
        }
        _ => None,
    }
}

/// What stands behind a prefix.
#[tactic(auto, unfolding(crate::specs::Names::behind))]
pub fn after<'a>(prefix: &[u8], name: &'a [u8]) -> Option<&'a [u8]>
    ensures { option_map (λ r. r.now) result ≡ behind prefix.now name.now }
{
    let mut wanted = prefix;
    let mut rest = name;
    loop {
        let Some((first, more)) = wanted.split_first() else {
            return Some(rest);
        };
        let Some((byte, behind)) = rest.split_first() else {
            return None;
        };
        if *byte != *first {
            return None;
        }
        wanted = more;
        rest = behind;
    }
}

#[tactic(auto, unfolding(crate::specs::Names::capped_from, t1_lex::specs::Bytes::is_digit))]
fn digits(bytes: &[u8]) -> Option<u8>
    ensures { result ≡ capped_from 0 bytes.now }
{
    let mut n = 0u32;
    for d in bytes {
        if *d < 48 || *d > 57 {
            return None;
        }
        n = (n * 10 + (*d as u32 - 48)).min(255);
    }
    Some(n as u8)
}

#[tactic(auto, unfolding(crate::specs::Names::capped))]
fn number(bytes: &[u8]) -> Option<u8>
    ensures { result ≡ capped bytes.now }
{
    match bytes {
        [] => None,
        [b'0', _, ..] => None,
        _ => digits(bytes),
    }
}

/// An ancillary state register by its name, or by its number.
#[tactic(auto, unfolding(crate::specs::Names::state_of, crate::specs::Names::numbered_state))]
pub fn state(name: &[u8]) -> Option<u8>
    ensures { result ≡ state_of name.now }
{
    if let Some(n) = named_state(name) {
        return Some(n);
    }
    let digits = after(b"%asr", name)?;
    number(digits)
}

/// Whether a `%` name says something.
#[tactic(auto, unfolding(crate::specs::Names::is_known_percent))]
pub fn known_percent(name: &[u8]) -> bool
    ensures { result ≡ is_known_percent name.now }
{
    register(name).is_some()
        || name == b"%hi".as_slice()
        || name == b"%lo".as_slice()
        || name == b"%icc".as_slice()
        || name == b"%xcc".as_slice()
        || name == b"%asi".as_slice()
        || state(name).is_some()
        || privileged(name).is_some()
}
