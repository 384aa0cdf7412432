// The barred book over a book.
ghost use Rattle.std.specs.Prelude.{◌≡◌, true};
ghost use Rattle.rule_book.specs.Barred.{without_barred, refusal_number, Bars, Loses};
ghost use Rattle.rule_book.specs.Books.{SameAnswers, in_set};
ghost use Rattle.std.proofs.Common.{rules};

use crate::book::Book;
use value_set::{Block, ValueSet};

/// A book without some of the values of the book below it. A barred value is in no set and in no row, and its own rows
/// are empty. It is not `Copy`, so there is no second one in which the value is not barred.
#[derive(Drop)]
pub struct Barred<B> {
    below: B,
    // The barred values of each option.
    barred: Block,
}

/// Why a value is not barred.
#[derive(Clone, Copy, PartialEq, Eq, Debug)]
pub enum BarRefusal {
    /// The book has no such option, or the option has no such value, perhaps since it is barred already.
    NoSuchValue = 13,
}

impl BarRefusal {
    /// The number under which the refusal is told.
    pub fn number(self) -> u8
        ensures { result ≡ refusal_number self }
    {
        self as u8
    }
}

impl<B: Book> Barred<B> {
    /// The book as it stands below, with nothing barred.
    pub fn new(below: B) -> Barred<B>
        ensures below { result.below ≡ below }
        ensures none { SameAnswers (without_barred (B.Book.meaning below) result.barred) (B.Book.meaning below) }
    {
        Barred {
            below,
            barred: Block::EMPTY,
        }
    }

    /// The book below, as it went in.
    pub fn into_below(self) -> B
        ensures { result ≡ self.below }
    {
        self.below
    }

    /// Bars a value of an option, which has to be in its set; otherwise the book is as before.
    pub fn bar(&mut self, option: usize, value: u8) -> Result<(), BarRefusal>
        ensures below { self.new.below ≡ self.old.below }
        ensures bars { Bars (B.Book.meaning self.old.below) self.old.barred option value
            result self.new.barred }
    {
        if !self.values(option).contains(value) {
            return Err(BarRefusal::NoSuchValue);
        }
        self.remove(option, value);
        Ok(())
    }

    fn remove(&mut self, option: usize, value: u8)
        requires { in_set (without_barred (B.Book.meaning self.old.below) self.old.barred) option value ≡ true }
        ensures below { self.new.below ≡ self.old.below }
        ensures loses { Loses (without_barred (B.Book.meaning self.old.below) self.old.barred)
            option value (without_barred (B.Book.meaning self.old.below) self.new.barred) }
    {
        let value = ValueSet::EMPTY.with(value);
        self.barred = self.barred.with_values(option, value);
    }
}

impl<B: Book> Book for Barred<B> {
    ghost meaning = { λ s. without_barred (B.Book.meaning s.below) s.barred };

    ghost lawful = { Prim.search rules };

    fn options(&self) -> usize {
        self.below.options()
    }

    fn values(&self, option: usize) -> ValueSet {
        self.below
            .values(option)
            .difference(self.barred.side(option))
    }

    #[tactic(auto, using(value_set::proofs::Bits::has_none))]
    fn row(&self, option: usize, value: u8, other: usize) -> ValueSet {
        if self.barred.side(option).contains(value) {
            return ValueSet::EMPTY;
        }
        self.below
            .row(option, value, other)
            .difference(self.barred.side(other))
    }
}
