// The count, which stays at the greatest number once it is there.
ghost use Rattle.std.specs.Prelude.{◌≡◌, ◌+◌, ◌-◌, ◌^◌, min, true, false, ◌≢◌};

#[derive(Clone, Copy, Default)]
pub struct Count {
    pub cases: u32,
    pub wrong: u32,
}

impl Count {
    /// One case more, and whether it went right. No wrong case is lost: the count of them is 0 at the end only if each
    /// case came as expected.
    pub fn compare<T: PartialEq>(&mut self, got: &T, expected: &T) -> bool
        ensures equal { result ≡ T.eq got.now expected.now }
        ensures cases { self.new.cases ≡ min (self.old.cases + 1) (2 ^ 32 - 1) }
        ensures right { result ≡ true → self.new.wrong ≡ self.old.wrong }
        ensures wrong { result ≡ false → self.new.wrong ≡ min (self.old.wrong + 1) (2 ^ 32 - 1) }
    {
        self.cases = self.cases.saturating_add(1);
        let equal = got == expected;
        if !equal {
            self.wrong = self.wrong.saturating_add(1);
        }
        equal
    }

    /// A case that could not be run.
    pub fn add_failure(&mut self)
        ensures cases { self.new.cases ≡ min (self.old.cases + 1) (2 ^ 32 - 1) }
        ensures wrong { self.new.wrong ≡ min (self.old.wrong + 1) (2 ^ 32 - 1) }
        ensures lost { self.new.wrong ≢ 0 }
    {
        self.add(Count { cases: 1, wrong: 1 });
    }

    pub fn add(&mut self, other: Count)
        ensures cases { self.new.cases ≡ min (self.old.cases + other.cases) (2 ^ 32 - 1) }
        ensures wrong { self.new.wrong ≡ min (self.old.wrong + other.wrong) (2 ^ 32 - 1) }
    {
        self.cases = self.cases.saturating_add(other.cases);
        self.wrong = self.wrong.saturating_add(other.wrong);
    }
}
