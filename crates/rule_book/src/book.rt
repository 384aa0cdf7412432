// What every rule book answers.
ghost use Rattle.std.specs.Prelude.{◌≡◌};
ghost use Rattle.rule_book.specs.Books.{Meaning, Lawful, SetOf, RowOf};

use value_set::ValueSet;

/// A rule book: the options of a product, the values of each, and which values of two options go together. A question
/// has an answer for every argument, and changes nothing.
pub trait Book {
    ghost meaning: { Self → Meaning };

    /// The number of options.
    fn options(&self) -> usize
        ensures { result ≡ (meaning self.now).options };

    /// The values of an option: none where there is no such option.
    fn values(&self, option: usize) -> ValueSet
        ensures { SetOf (meaning self.now) option result };

    /// The values of another option that go with a value of an option. There are none if either is no option, if both
    /// are the same, or if the option has no such value.
    fn row(&self, option: usize, value: u8, other: usize) -> ValueSet
        ensures { RowOf (meaning self.now) option value other result };

    ghost lawful: { (b : Self) → Lawful (meaning b) };
}
