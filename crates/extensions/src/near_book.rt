// The book in which near values go together.
ghost use Rattle.std.specs.Prelude.{◌≡◌, ℕ, ◌≤◌, min, max, ◌&&◌, nat_lt};
ghost use Rattle.value_set.specs.Limits.{most_options, most_values};
ghost use Rattle.value_set.specs.Members.{member};
ghost use Rattle.extensions.specs.NearBooks.{near, near_meaning};
ghost use Rattle.std.proofs.Common.{rules, arith};

use rule_book::Book;
use value_set::{OPTIONS, ValueSet};

/// All options have the same values, and two values of different options go together if they differ by at most one.
#[derive(Clone, Copy)]
pub struct NearBook {
    options: usize,
    // The values are those below this number, as far as a set can hold them.
    count: u8,
    ghost some: { 1 ≤ options },
    ghost few: { options ≤ most_options },
}

impl NearBook {
    /// The book with this many options, at least one and at most `OPTIONS`, each with the values below `count`.
    pub fn new(options: usize, count: u8) -> NearBook
        ensures options { result.options ≡ max 1 (min options most_options) }
        ensures count { result.count ≡ count }
    {
        NearBook {
            options: options.clamp(1, OPTIONS),
            count,
        }
    }
}

impl Book for NearBook {
    ghost meaning = { λ s. near_meaning s.options s.count };

    ghost lawful = { first_of (Prim.search rules, Prim.grind (arith, Self.row.coded.inj)) };

    fn options(&self) -> usize {
        self.options
    }

    #[tactic(auto, using(value_set::proofs::Bits::has_none))]
    fn values(&self, option: usize) -> ValueSet {
        if option < self.options {
            ValueSet::first(self.count)
        } else {
            ValueSet::EMPTY
        }
    }

    #[tactic(auto, using(value_set::proofs::Bits::has_none))]
    fn row(&self, option: usize, value: u8, other: usize) -> ValueSet {
        if option == other || !self.values(option).contains(value) {
            return ValueSet::EMPTY;
        }
        self.values(other).common(neighbours(value))
    }
}

// The values that differ from a value by at most one.
fn neighbours(value: u8) -> ValueSet
    ensures { (v : ℕ) → member result v ≡ (nat_lt v most_values && near value v) }
{
    ValueSet::first(value.saturating_add(2)).difference(ValueSet::first(value.saturating_sub(1)))
}
