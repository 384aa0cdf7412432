// The options that a record file gives, and the values of each.
ghost use Rattle.std.specs.Prelude.{◌≡◌, ℕ, ◌<◌, ◌≤◌, ◌&&◌, List, Decides, MatchOption, ◌==◌, nat_lt};
ghost use Rattle.value_set.specs.Blocks.{side_of};
ghost use Rattle.value_set.specs.Limits.{most_options, most_values};
ghost use Rattle.value_set.specs.Members.{member};
ghost use Rattle.record_file.specs.Faults.{Sound};
ghost use Rattle.record_file.specs.Layout.{whole_records, count_before, HasLetter, o_letter};
ghost use Rattle.record_file.specs.Reading.{Shows};
ghost use Rattle.file_books.specs.Domains.{Given, HasValue};

use record_file::{RECORD_LENGTH, Record};
use value_set::{Block, ValueSet};

#[derive(Clone, Copy)]
pub(crate) struct Domains {
    // The count of O records, kept beside the sets: to count the sides that are not empty would be no plainer.
    count: usize,
    // The values of each option are that side.
    sets: Block,
    ghost some: { 1 ≤ count },
    ghost few: { count ≤ most_options },
}

impl Domains {
    // The options of a file that the check accepts.
    pub(crate) fn read(file: &[u8]) -> Domains
        requires { Sound file.now }
        ensures count { result.count ≡ count_before file.now o_letter (whole_records file.now) }
        ensures sets { (i v : ℕ) → Decides (member (side_of result.sets i) v) (HasValue file.now i v) }
    {
        let mut count = 0;
        let mut sets = Block::EMPTY;
        // Records are read by their numbers.
        for number in 0..file.len() / RECORD_LENGTH {
            if let Some((option, values)) = Record::read(file, number).and_then(given_by) {
                count += 1;
                sets = sets.with_values(option, values);
            }
        }
        Domains { count, sets }
    }

    // One option with the single value 0.
    pub(crate) fn single() -> Domains
        ensures count { result.count ≡ 1 }
        ensures sets { (i v : ℕ) → member (side_of result.sets i) v ≡ (i == 0 && v == 0) }
    {
        Domains {
            count: 1,
            sets: Block::EMPTY.with_values(0, ValueSet::first(1)),
        }
    }

    pub(crate) fn count(&self) -> usize
        ensures { result ≡ self.now.count }
    {
        self.count
    }

    // The values of an option, none where there is no such option.
    pub(crate) fn set(&self, option: usize) -> ValueSet
        ensures { (v : ℕ) → member result v ≡ (nat_lt option self.now.count
            && (nat_lt v most_values && member (side_of self.now.sets option) v)) }
    {
        if option < self.count {
            self.sets.side(option)
        } else {
            ValueSet::EMPTY
        }
    }
}

// The option that a record gives, with its values, if it is an O record.
fn given_by(record: Record) -> Option<(usize, ValueSet)>
    ensures { (file : List ℕ) (k : ℕ) → Shows file k «record».entry
        → MatchOption result (HasLetter file k o_letter → ⊥) (Given file k) }
{
    match record {
        Record::Domain { option, count, .. } => Some((usize::from(option), ValueSet::first(count))),
        _ => None,
    }
}
