// Where lines stand, and how many bytes they take.
ghost use Rattle.std.specs.Prelude.{◌≡◌, ◌≤◌, ◌<◌, ◌+◌, ◌*◌, ◌^◌, Some, None, nat_lt, if◌then◌else◌, true};
ghost use Rattle.t1_stmt.specs.Lines.{seen_body};
ghost use Rattle.t1_asm.specs.Passes.{is_alignment, padding, width_bytes, size_of, start_of, early_value, is_past, is_outside};

use t1_form::directive::Width;
use t1_stmt::statement::{Body, Statement};
use t1_stmt::templates;

#[tactic(auto, unfolding(crate::specs::Passes::is_alignment))]
fn alignment(a: u64) -> bool
    ensures value { result ≡ is_alignment a }
    ensures some { result ≡ true → 0 < a }
    ensures most { result ≡ true → a ≤ 4096 }
{
    matches!(
        a,
        1 | 2 | 4 | 8 | 16 | 32 | 64 | 128 | 256 | 512 | 1024 | 2048 | 4096
    )
}

/// The zeros of an `.align`.
#[tactic(auto, unfolding(crate::specs::Passes::padding))]
pub fn pad(here: u64, a: u64) -> u64
    ensures value { result ≡ padding here a }
    ensures small { result ≤ 4096 }
{
    if alignment(a) { (a - here % a) % a } else { 0 }
}

/// How many bytes a number of this width has.
pub fn bytes_in(width: Width) -> u64
    ensures { result ≡ width_bytes width }
{
    match width {
        Width::Byte => 1,
        Width::Half => 2,
        Width::Word => 4,
        Width::Xword => 8,
    }
}

fn numbers_size(width: Width, count: u64) -> u64
    requires { count ≤ 16777216 }
    ensures value { result ≡ width_bytes width * count }
{
    match width {
        Width::Byte => count,
        Width::Half => 2 * count,
        Width::Word => 4 * count,
        Width::Xword => 8 * count,
    }
}

/// The bytes of a line, where they are no more than a text may have.
#[tactic(auto, unfolding(crate::specs::Passes::size_of))]
pub fn size(here: u64, body: &Body<'_>) -> Option<u64>
    ensures { result ≡ (if nat_lt 16777216 (size_of here (seen_body body.now)) then None else Some (size_of here (seen_body body.now))) }
{
    let n = match body {
        Body::Holds(Statement::Skip(v)) => v.unwrap_or(0),
        Body::Holds(Statement::Align(v)) => pad(here, v.unwrap_or(0)),
        Body::Holds(Statement::Numbers(width, values)) => {
            let count = values.as_slice().len() as u64;
            if count > 16777216 {
                return None;
            }
            numbers_size(*width, count)
        }
        Body::Holds(Statement::Text(bytes)) => bytes.as_slice().len() as u64,
        Body::Holds(Statement::Insn(statement)) => templates::size(statement.template),
        _ => 0,
    };
    if n > 16777216 { None } else { Some(n) }
}

#[tactic(auto, unfolding(crate::specs::Passes::start_of))]
pub fn start(here: u64, body: &Body<'_>) -> u64
    ensures { result ≡ start_of here (seen_body body.now) }
{
    match body {
        Body::Holds(Statement::Org(v)) => v.unwrap_or(0),
        _ => here,
    }
}

#[tactic(auto, unfolding(crate::specs::Passes::early_value))]
pub fn early(body: &Body<'_>) -> Option<u64>
    ensures { result ≡ early_value (seen_body body.now) }
{
    match body {
        Body::Assigns(_, v) => *v,
        Body::Holds(Statement::Org(v)) => *v,
        Body::Holds(Statement::Skip(v)) => *v,
        Body::Holds(Statement::Align(v)) => *v,
        _ => Some(0),
    }
}

fn past(here: u64, size: u64) -> bool
    requires here { here ≤ 2 ^ 39 }
    requires size { size ≤ 16777216 }
    ensures { result ≡ is_past here size }
{
    size > 0 && here + size > 1 << 39
}

#[tactic(auto, unfolding(crate::specs::Passes::is_outside, crate::specs::Passes::size_of))]
pub fn outside(here: u64, size: u64, body: &Body<'_>) -> bool
    requires here { here ≤ 2 ^ 39 }
    requires small { size ≤ 16777216 }
    requires size { size ≡ size_of here (seen_body body.now) }
    ensures { result ≡ is_outside here (seen_body body.now) }
{
    match body {
        Body::Holds(Statement::Org(v)) => v.unwrap_or(0) >= 1 << 39,
        Body::Holds(Statement::Align(v)) => !alignment(v.unwrap_or(0)) || past(here, size),
        Body::Holds(Statement::Insn(_)) => here % 4 != 0 || past(here, size),
        _ => past(here, size),
    }
}
