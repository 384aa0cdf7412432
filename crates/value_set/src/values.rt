// The values of a set one after the other.
ghost use Rattle.std.specs.Prelude.{◌≡◌, ◌<◌, ◌≤◌, Some, MatchOption, slice_get};
ghost use Rattle.value_set.specs.Limits.{most_values};
ghost use Rattle.value_set.specs.Members.{member, list_below, size, Next, NoMember, Nth};
ghost use Rattle.std.specs.Iterator.{at_most};

use crate::set::ValueSet;

/// An iterator of the values of a set, in ascending order.
#[derive(Clone, Copy, Debug)]
pub struct Values {
    rest: ValueSet,
}

impl Iterator for Values {
    type Item = u8;

    // The least value of what is left comes next, and is then gone from what is left.
    ghost next_gives = { λ s r t. Next s.rest r t.rest };

    ghost remaining = { λ s. at_most (size s.rest) };

    fn next(&mut self) -> Option<u8> {
        let (value, others) = self.rest.split_least()?;
        self.rest = others;
        Some(value)
    }
}

impl ValueSet {
    /// The values in ascending order.
    pub fn values(self) -> Values
        ensures { result.rest ≡ self }
    {
        Values { rest: self }
    }

    /// The value that has exactly `index` values of the set below it, if there is one.
    #[tactic(auto, using(crate::proofs::Steps::nth_value))]
    pub fn nth(self, index: u32) -> Option<u8>
        ensures { MatchOption result (size self ≤ index) (Nth self index) }
    {
        self.value_at(index as usize)
    }

    // The value at a place among the values in ascending order.
    fn value_at(self, place: usize) -> Option<u8>
        ensures { result ≡ slice_get (list_below most_values (member self)) place }
    {
        self.values().nth(place)
    }

    /// The least value and the set of the others, which is smaller.
    fn split_least(self) -> Option<(u8, ValueSet)>
        ensures { MatchOption result (NoMember self) (λ p. Next self (Some p.0) p.1 × (size p.1 < size self)) }
    {
        let value = self.least()?;
        Some((value, self.without(value)))
    }
}
