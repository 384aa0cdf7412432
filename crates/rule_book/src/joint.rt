// The joint book of two books.
ghost use Rattle.std.specs.Prelude.{◌≡◌};
ghost use Rattle.rule_book.specs.Joint.{joint};
ghost use Rattle.std.proofs.Common.{rules};

use crate::book::Book;
use value_set::ValueSet;

/// Permits what both of two books permit. It has the options that both have, and the sets and rows are the common parts.
#[derive(Clone, Drop)]
pub struct Joint<X, Y> {
    left: X,
    right: Y,
}

impl<X, Y> Joint<X, Y> {
    pub fn new(left: X, right: Y) -> Joint<X, Y>
        ensures left { result.left ≡ left }
        ensures right { result.right ≡ right }
    {
        Joint { left, right }
    }
}

impl<X: Book, Y: Book> Book for Joint<X, Y> {
    ghost meaning = { λ s. joint (X.Book.meaning s.left) (Y.Book.meaning s.right) };

    ghost lawful = { Prim.search rules };

    fn options(&self) -> usize {
        self.left.options().min(self.right.options())
    }

    fn values(&self, option: usize) -> ValueSet {
        self.left.values(option).common(self.right.values(option))
    }

    fn row(&self, option: usize, value: u8, other: usize) -> ValueSet {
        self.left
            .row(option, value, other)
            .common(self.right.row(option, value, other))
    }
}
