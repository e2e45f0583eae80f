//! The first number of one list that lies above a later number of another.
ghost use Rattle.std.specs.Prelude.{ℕ, ◌≡◌, ◌<◌, ◌+◌, length, drop, MatchOption};
ghost use Rattle.t1_check.specs.Crossing.{least, IsUncrossed, IsCrossedAt, IsFirstBelow, IsFirstCrossing};

/// The first place whose bound lies above a later goal: one pass from the right, with the least goal
/// so far.
fn crossed(bounds: &[usize], goals: &[usize]) -> Option<usize>
    requires { length bounds.now ≡ length goals.now }
    ensures { MatchOption result (IsUncrossed bounds.now goals.now) (λ at. IsCrossedAt bounds.now goals.now at) }
{
    let mut low = usize::MAX;
    let mut found = None;
    for at in (0..goals.len()).rev() {
        if low < bounds[at] {
            found = Some(at);
        }
        low = low.min(goals[at]);
    }
    found
}

/// The first place from there on whose goal lies below a bound.
fn first_below(goals: &[usize], start: usize, bound: usize) -> usize
    requires { least (drop start goals.now) < bound }
    ensures { IsFirstBelow goals.now start bound result }
{
    for at in start..goals.len() {
        if goals[at] < bound {
            return at;
        }
    }
    start
}

/// The first place whose bound lies above a later goal, and the first such goal.
pub(crate) fn first_crossing(bounds: &[usize], goals: &[usize]) -> Option<(usize, usize)>
    requires { length bounds.now ≡ length goals.now }
    ensures { MatchOption result (IsUncrossed bounds.now goals.now) (λ found. IsFirstCrossing bounds.now goals.now found.0 found.1) }
{
    let first = crossed(bounds, goals)?;
    Some((first, first_below(goals, first + 1, bounds[first])))
}
