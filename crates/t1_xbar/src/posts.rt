//! The packets of a commit.
ghost use Rattle.std.specs.Prelude.{◌≡◌, ◌<◌, ◌≤◌, ◌++◌, ◌∷◌, [], length, IfSome, IfNone};

use crate::admitted::Post;
use arrayvec::ArrayVec;
use std::marker::Model;

/// The packets of a commit, at most one for each of eight cores, seen as a list.
#[derive(Drop)]
pub struct Posts {
    items: ArrayVec<Post, 8>,
}

impl Model for Posts {
    ghost use Rattle.std.specs.Prelude.{List};
    ghost use Rattle.t1_xbar.specs.declared.admitted.Post.{Post};

    ghost Value = { List Post };

    ghost view = { λ p. p.items.items };
}

impl Posts {
    pub fn new() -> Posts
        ensures { result ≡ [] }
    {
        Posts {
            items: ArrayVec::new(),
        }
    }

    pub fn push(&mut self, post: Post)
        requires { length self.old < 8 }
        ensures { self.new ≡ self.old ++ post ∷ [] }
    {
        self.items.push(post);
    }

    /// Takes out the last.
    pub fn pop(&mut self) -> Option<Post>
        ensures some { IfSome result (λ post. self.old ≡ self.new ++ post ∷ []) }
        ensures none { IfNone result (self.old ≡ []) }
    {
        self.items.pop()
    }

    pub fn as_slice(&self) -> &[Post]
        ensures value { result.now ≡ self.now }
        ensures few { length result.now ≤ 8 }
    {
        self.items.as_slice()
    }
}
