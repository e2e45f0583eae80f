// Expressions that are being read.
use std::alloc::{AllocError, Global};
use std::marker::Model;

/// What may come next in an expression.
#[derive(Clone, Copy, Drop)]
pub enum Mode {
    Start,
    Atom,
    Paren,
    More,
}

/// An open `%hi(` or `%lo(`: the sum before it, and how its value joins it.
#[derive(Clone, Copy, Drop)]
pub struct Open {
    pub sum: Option<u64>,
    pub minus: bool,
    pub low: bool,
}

/// What is open, the innermost first.
#[derive(Drop)]
pub struct Stack {
    items: Vec<Open>,
}

impl Model for Stack {
    ghost use Rattle.std.specs.Prelude.{List, reverse};
    ghost use Rattle.t1_expr.specs.declared.sum.Open.{Open};

    ghost Value = { List Open };

    ghost view = { λ s. reverse s.items.items };
}

/// An expression so far: what may come next, what is open, the sum, and whether what comes is subtracted.
#[derive(Drop)]
pub struct Sum {
    pub mode: Mode,
    pub outer: Stack,
    pub sum: Option<u64>,
    pub minus: bool,
}

impl Stack {
    ghost use Rattle.std.specs.Prelude.{◌≡◌, [], ◌∷◌, OnOk};
    ghost use Rattle.std.specs.Option.{MatchOption};

    pub fn new(alloc: Global) -> Stack
        ensures { result ≡ [] }
    {
        Stack {
            items: Vec::new(alloc),
        }
    }

    #[tactic(auto, using(crate::proofs::Stacks::pushed))]
    pub fn push(&mut self, item: Open) -> Result<(), AllocError>
        ensures { OnOk result (self.new ≡ item ∷ self.old) }
    {
        self.items.push(item)?;
        Ok(())
    }

    #[tactic(auto, using(crate::proofs::Stacks::pushed))]
    pub fn pop(&mut self) -> Option<Open>
        ensures { MatchOption result ((self.old ≡ []) × (self.new ≡ [])) (λ o. self.old ≡ o ∷ self.new) }
    {
        self.items.pop()
    }
}
