// The relation that the R records of a file make.
ghost use Rattle.std.specs.Prelude.{◌≡◌, ℕ, ◌+◌, ◌<◌, ◌&&◌, ◌||◌, List, ◌==◌};
ghost use Rattle.value_set.specs.Limits.{most_options, most_values};
ghost use Rattle.value_set.specs.Members.{member};
ghost use Rattle.record_file.specs.Reading.{Shows};
ghost use Rattle.file_books.specs.Conflicts.{conflict, no_conflict, RowForbids, ConflictsBefore};

use crate::relation::Relation;
use record_file::{RECORD_LENGTH, Record, word_of};
use value_set::{Block, OPTIONS, PLACES, VALUES, ValueSet, place_of};

/// The pairs of values that R records forbid: for each value of each option, a block whose sides are the values of the
/// higher options that do not go with it. A question then needs no search through the file.
#[derive(Clone, Copy)]
pub struct Conflicts {
    // An array, as a book allocates nothing.
    blocks: [Block; PLACES],
}

impl Conflicts {
    // Forbids a value beside these values of another option.
    fn forbid(&mut self, option: usize, value: u8, other: usize, values: ValueSet)
        ensures { (i a j b : ℕ) → i < most_options → a < most_values → j < most_options
            → conflict self.new i a j b ≡ (conflict self.old i a j b
            || ((i == option && (a == value && j == other)) && member values b)) }
    {
        if let Some(place) = place_of(option, value) {
            self.blocks[place] = self.blocks[place].with_values(other, values);
        }
    }

    // Takes in a record, which forbids nothing unless it is an R record.
    fn add(&mut self, record: Record)
        ensures { (file : List ℕ) (k : ℕ) → Shows file k «record».entry
            → ConflictsBefore file k self.old → ConflictsBefore file (k + 1) self.new }
    {
        if let Record::Row {
            option,
            value,
            other,
            mask,
        } = record
        {
            let allowed = ValueSet::from_mask(word_of(mask));
            let forbidden = ValueSet::ALL.difference(allowed);
            self.forbid(usize::from(option), value, usize::from(other), forbidden);
        }
    }
}

impl Relation for Conflicts {
    ghost allows = { no_conflict };

    ghost Forbids = { RowForbids };

    fn all() -> Conflicts {
        Conflicts {
            blocks: [Block::EMPTY; PLACES],
        }
    }

    fn read(file: &[u8]) -> Conflicts {
        let mut conflicts = Conflicts::all();
        // Records are read by their numbers.
        for number in 0..file.len() / RECORD_LENGTH {
            if let Some(record) = Record::read(file, number) {
                conflicts.add(record);
            }
        }
        conflicts
    }

    #[tactic(auto, using(crate::proofs::Conflicting::no_conflict_past))]
    fn contains(&self, option: usize, value: u8, other: usize, partner: u8) -> bool {
        // Not by `place_of`: beyond the limits there is an answer too, that of the place that the numbers come to.
        let place = option.min(OPTIONS) * VALUES as usize + usize::from(value);
        match self.blocks.get(place) {
            Some(block) => !block.side(other).contains(partner),
            None => true,
        }
    }
}
