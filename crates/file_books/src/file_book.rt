// Books whose options and rules come from a record file.
ghost use Rattle.std.specs.Prelude.{◌≡◌, ℕ, ◌&&◌};
ghost use Rattle.value_set.specs.Members.{member};
ghost use Rattle.record_file.specs.Faults.{Sound};
ghost use Rattle.file_books.specs.Files.{either_order, file_meaning, ReadOff, Single};
ghost use Rattle.std.proofs.Common.{rules};

use crate::domains::Domains;
use crate::relation::Relation;
use rule_book::Book;
use value_set::ValueSet;

/// A book that is made from the bytes of a record file: the O records give its options, and one kind of record says
/// which values go together.
#[derive(Clone, Copy, Drop)]
pub struct FileBook<R> {
    domains: Domains,
    relation: R,
}

impl<R: Relation> FileBook<R> {
    /// The book of a file. A file that the check refuses makes a book of one option with the single value 0.
    pub fn new(file: &[u8]) -> FileBook<R>
        ensures accepted { Sound file.now → ReadOff R.Relation.Forbids file.now
            (file_meaning result.domains (R.Relation.allows result.relation)) }
        ensures refused { (Sound file.now → ⊥) → Single
            (file_meaning result.domains (R.Relation.allows result.relation)) }
    {
        match record_file::check(file) {
            Ok(()) => FileBook {
                domains: Domains::read(file),
                relation: R::read(file),
            },
            Err(_) => FileBook {
                domains: Domains::single(),
                relation: R::all(),
            },
        }
    }

    // The values of `others`, a set of values of another option, that go with a value of an option. By a loop: the library
    // tells what a fold comes to where each step is a function, and `with` tells which values a set has.
    fn partners(&self, option: usize, value: u8, other: usize, others: ValueSet) -> ValueSet
        ensures { (b : ℕ) → member result b ≡ (member others b
            && either_order (R.Relation.allows self.now.relation) option value other b) }
    {
        let mut row = ValueSet::EMPTY;
        for partner in others.values() {
            if self.together(option, value, other, partner) {
                row = row.with(partner);
            }
        }
        row
    }

    // Whether values of two options go together, in whichever order the options come. The four numbers stay apart, as
    // a book and a relation are asked by them.
    fn together(&self, option: usize, value: u8, other: usize, partner: u8) -> bool
        ensures { result ≡ either_order (R.Relation.allows self.now.relation) option value other partner }
    {
        if option < other {
            self.relation.contains(option, value, other, partner)
        } else {
            self.relation.contains(other, partner, option, value)
        }
    }
}

impl<R: Relation> Book for FileBook<R> {
    ghost meaning = { λ s. file_meaning s.domains (R.Relation.allows s.relation) };

    ghost lawful = { Prim.search rules };

    fn options(&self) -> usize {
        self.domains.count()
    }

    fn values(&self, option: usize) -> ValueSet {
        self.domains.set(option)
    }

    #[tactic(auto, using(value_set::proofs::Bits::has_none))]
    fn row(&self, option: usize, value: u8, other: usize) -> ValueSet {
        if option == other || !self.domains.set(option).contains(value) {
            return ValueSet::EMPTY;
        }
        self.partners(option, value, other, self.domains.set(other))
    }
}
