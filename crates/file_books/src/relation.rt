// Which values of two options the records of a file let go together.
ghost use Rattle.std.specs.Prelude.{◌≡◌, ℕ, true};
ghost use Rattle.record_file.specs.Faults.{Sound};
ghost use Rattle.file_books.specs.Relations.{Pairs, Forbidding, AllowsBy};

/// A relation between the values of two options, as one kind of record makes it. It is asked with the lower option
/// first.
pub trait Relation: Sized {
    ghost allows: { Self → Pairs };

    ghost Forbids: { Forbidding };

    /// Every value goes with every value.
    fn all() -> Self
        ensures { (i a j b : ℕ) → allows result i a j b ≡ true };

    /// Values go together unless a record forbids them, in a file that the check accepts.
    fn read(file: &[u8]) -> Self
        ensures { Sound file.now → AllowsBy Forbids file.now (allows result) };

    /// Whether a value of an option goes with a value of a higher option.
    fn contains(&self, option: usize, value: u8, other: usize, partner: u8) -> bool
        ensures { result ≡ allows self.now option value other partner };
}
