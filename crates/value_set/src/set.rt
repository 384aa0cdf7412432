// A set of the values of one option. Only here are the bits of a mask looked at.
ghost use Rattle.std.specs.Prelude.{◌≡◌, ℕ, ◌<◌, ◌≤◌, not, ◌&&◌, ◌||◌, Decides, MatchOption, ◌==◌, nat_lt};
ghost use Rattle.value_set.specs.Limits.{most_values};
ghost use Rattle.value_set.specs.Members.{member, size, Least, NoMember, Within, Without};

/// An option has at most this many values, which are numbered from 0.
pub const VALUES: u32 = 32;

/// A set of the values 0 to 31 of an option: bit v of the mask stands for value v.
#[derive(Clone, Copy, PartialEq, Eq, Debug)]
pub struct ValueSet {
    mask: u32,
}

#[tactic(auto, using(crate::proofs::Masks::mask_steps))]
impl ValueSet {
    /// The set with no value.
    pub const EMPTY: ValueSet = ValueSet { mask: 0 };

    /// The set with every value.
    pub const ALL: ValueSet = ValueSet { mask: u32::MAX };

    // By name and not as `From<u32>`, since a number could as well stand for the one value of a set.
    pub fn from_mask(mask: u32) -> ValueSet
        ensures { result.mask ≡ mask }
    {
        ValueSet { mask }
    }

    pub fn mask(self) -> u32
        ensures { result ≡ self.mask }
    {
        self.mask
    }

    /// The values below `count`: all of them from `VALUES` on.
    pub fn first(count: u8) -> ValueSet
        ensures { (v : ℕ) → member result v ≡ (nat_lt v count && nat_lt v most_values) }
    {
        if u32::from(count) < VALUES {
            ValueSet {
                mask: (1 << count) - 1,
            }
        } else {
            ValueSet::ALL
        }
    }

    /// The set of this value alone, empty for a value from `VALUES` on.
    fn single(value: u8) -> ValueSet
        ensures { (v : ℕ) → member result v ≡ (v == value && nat_lt v most_values) }
    {
        if u32::from(value) < VALUES {
            ValueSet { mask: 1 << value }
        } else {
            ValueSet::EMPTY
        }
    }

    pub fn contains(self, value: u8) -> bool
        ensures { result ≡ member self value }
    {
        u32::from(value) < VALUES && (self.mask >> value) & 1 == 1
    }

    // The operations have names, as on the sets of std: `&`, `|` and `-` beside them would say the same once more.

    /// The values that are in both sets.
    pub fn common(self, other: ValueSet) -> ValueSet
        ensures { (v : ℕ) → member result v ≡ (member self v && member other v) }
    {
        ValueSet {
            mask: self.mask & other.mask,
        }
    }

    /// The values that are in either set.
    pub fn union(self, other: ValueSet) -> ValueSet
        ensures { (v : ℕ) → member result v ≡ (member self v || member other v) }
    {
        ValueSet {
            mask: self.mask | other.mask,
        }
    }

    /// The values of this set that are not in the other.
    pub fn difference(self, other: ValueSet) -> ValueSet
        ensures { (v : ℕ) → member result v ≡ (member self v && not (member other v)) }
    {
        ValueSet {
            mask: self.mask & !other.mask,
        }
    }

    pub fn is_empty(self) -> bool
        ensures { Decides result (NoMember self) }
    {
        self.mask == 0
    }

    /// The number of values.
    pub fn len(self) -> u32
        ensures value { result ≡ size self }
        ensures bound { result ≤ most_values }
    {
        self.mask.count_ones()
    }

    /// The least value, if there is one.
    pub fn least(self) -> Option<u8>
        ensures { MatchOption result (NoMember self) (λ v. (v < most_values) × Least (member self) v) }
    {
        if self.is_empty() {
            return None;
        }
        Some(self.mask.trailing_zeros() as u8)
    }

    /// Whether each value of this set is in the other.
    pub fn is_within(self, other: ValueSet) -> bool
        ensures { Decides result (Within self other) }
    {
        self.mask & other.mask == self.mask
    }

    /// The set with this value added; a value from `VALUES` on changes nothing.
    pub fn with(self, value: u8) -> ValueSet
        ensures { (v : ℕ) → member result v ≡ (member self v || (v == value && nat_lt v most_values)) }
    {
        self.union(ValueSet::single(value))
    }

    /// The set with this value removed.
    pub fn without(self, value: u8) -> ValueSet
        ensures { Without self value result }
    {
        self.difference(ValueSet::single(value))
    }
}
