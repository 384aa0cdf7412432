// The record that is at hand in a check, and for each rule on records the byte at which it breaks the rule, if it does.
ghost use Rattle.std.specs.Prelude.{◌≡◌, ℕ, ◌<◌, Decides, MatchOption, MatchResult, slice_index};
ghost use Rattle.record_file.specs.Layout.{count_before, o_letter, l_letter, Gives, KnownOption};
ghost use Rattle.record_file.specs.Rules.{FollowsAnotherKind, HasUnknownFirst, HasUnknownValue, HasUnknownSecond, Repeated, unused};
ghost use Rattle.record_file.specs.Faults.{Breaks, Finds, OnRecord, SoundRecord, FirstInRecord};
ghost use Rattle.record_file.specs.Tallies.{values_before, row_marked, price_marked, row_before, price_before};
ghost use Rattle.record_file.specs.declared.fault.Rule.TheVariants.{UnknownLetter, MisplacedOption, ValueCount};
ghost use Rattle.record_file.specs.declared.fault.Rule.TheVariants.{UnknownReference, MaskBeyondValues, ReservedByte};
ghost use Rattle.record_file.specs.declared.fault.Rule.TheVariants.{Duplicate, TooManyInequalities};

use crate::fault::{Fault, Rule};
use crate::layout::{RECORD_LENGTH, RawRecord};
use crate::tally::Tally;
use value_set::{OPTIONS, VALUES, ValueSet};

/// A file has at most this many L records.
pub const MOST_INEQUALITIES: usize = 16;

// The rules on records, in the order of their numbers.
const RECORD_RULES: [Rule; 8] = [
    Rule::UnknownLetter,
    Rule::MisplacedOption,
    Rule::ValueCount,
    Rule::UnknownReference,
    Rule::MaskBeyondValues,
    Rule::ReservedByte,
    Rule::Duplicate,
    Rule::TooManyInequalities,
];

// A record that comes after records without a fault, and what was kept of those.
#[derive(Clone, Copy)]
pub(crate) struct Candidate<'f, 't> {
    pub(crate) record: RawRecord<'f>,
    pub(crate) tally: &'t Tally,
    ghost sound: { (k : ℕ) → k < record.number → SoundRecord record.file.now k },
    ghost options: { tally.now.options ≡ count_before record.file.now o_letter record.number },
    ghost counts: { (o : ℕ) → slice_index tally.now.counts o ≡ values_before record.file.now record.number o },
    ghost rows: { (o v p : ℕ) → row_marked tally.now o v p ≡ row_before record.file.now record.number o v p },
    ghost prices: { (o v : ℕ) → price_marked tally.now o v ≡ price_before record.file.now record.number o v },
    ghost inequalities: { tally.now.inequalities ≡ count_before record.file.now l_letter record.number },
}

impl<'f, 't> Candidate<'f, 't> {
    // Refuses the record under its first fault, if it has one: the rules are looked at in the order of their numbers.
    pub(crate) fn check(&self) -> Result<(), Fault>
        ensures { MatchResult result (λ _. SoundRecord self.now.record.file.now self.now.record.number)
            (FirstInRecord self.now.record.file.now self.now.record.number) }
    {
        for rule in &RECORD_RULES {
            if let Some(byte) = self.broken_at(*rule) {
                return Err(Fault::new(*rule, self.record.number, byte));
            }
        }
        Ok(())
    }

    // The byte at which the record breaks a rule on records, if it does. By a `match`, so that no rule is forgotten.
    fn broken_at(&self, rule: Rule) -> Option<u8>
        ensures { OnRecord rule → Finds result (Breaks self.now.record.file.now rule self.now.record.number) }
    {
        match rule {
            Rule::TooLong | Rule::PartialRecord | Rule::NoRecord => None,
            Rule::UnknownLetter => self.unknown_letter(),
            Rule::MisplacedOption => self.misplaced_option(),
            Rule::ValueCount => self.value_count(),
            Rule::UnknownReference => self.unknown_reference(),
            Rule::MaskBeyondValues => self.mask_beyond_values(),
            Rule::ReservedByte => self.reserved_byte(),
            Rule::Duplicate => self.duplicate(),
            Rule::TooManyInequalities => self.too_many_inequalities(),
        }
    }

    fn unknown_letter(&self) -> Option<u8>
        ensures { Finds result (Breaks self.now.record.file.now UnknownLetter self.now.record.number) }
    {
        // Kinds are told by a `match` on the letter, as the format tells them.
        match self.record.letter() {
            'O' | 'R' | 'L' | 'P' => None,
            _ => Some(0),
        }
    }

    // Whether some record before this one is no O record. Since an O record follows O records alone, their count tells.
    fn follows_another_kind(&self) -> bool
        ensures { Decides result (FollowsAnotherKind self.now.record.file.now self.now.record.number) }
    {
        self.tally.options() < self.record.number
    }

    // Where all records before this one are O records, their count is its number.
    fn misplaced_option(&self) -> Option<u8>
        ensures { Finds result (Breaks self.now.record.file.now MisplacedOption self.now.record.number) }
    {
        if self.record.letter() != 'O' {
            return None;
        }
        let count = self.record.number;
        if self.follows_another_kind()
            || usize::from(self.record.byte(1)) != count
            || count >= OPTIONS
        {
            return Some(1);
        }
        None
    }

    fn value_count(&self) -> Option<u8>
        ensures { Finds result (Breaks self.now.record.file.now ValueCount self.now.record.number) }
    {
        let count = self.record.byte(2);
        if self.record.letter() == 'O' && (count == 0 || u32::from(count) > VALUES) {
            return Some(2);
        }
        None
    }

    // The number of values of an option, if a record before this one gives it. No record gives an option without values.
    fn values_of(&self, option: u8) -> Option<u8>
        ensures { MatchOption result
            (KnownOption self.now.record.file.now self.now.record.number option → ⊥)
            (Gives self.now.record.file.now self.now.record.number option) }
    {
        match self.tally.count(option) {
            0 => None,
            count => Some(count),
        }
    }

    // The three tests below differ in their letters, and in what it is not to know an option, a value or a higher option.

    // Whether byte 1 of an R, L or P record names an option that is not known.
    fn names_unknown_option(&self) -> bool
        ensures { Decides result (HasUnknownFirst self.now.record.file.now self.now.record.number) }
    {
        match self.record.letter() {
            'R' | 'L' | 'P' => self.values_of(self.record.byte(1)).is_none(),
            _ => false,
        }
    }

    // Whether byte 2 of an R or P record names a value that its option is not known to have.
    fn names_unknown_value(&self) -> bool
        ensures { Decides result (HasUnknownValue self.now.record.file.now self.now.record.number) }
    {
        match self.record.letter() {
            'R' | 'P' => match self.values_of(self.record.byte(1)) {
                Some(count) => self.record.byte(2) >= count,
                None => true,
            },
            _ => false,
        }
    }

    // Whether byte 3 of an R or L record names an option that is not known, or not above the first.
    fn names_unknown_other(&self) -> bool
        ensures { Decides result (HasUnknownSecond self.now.record.file.now self.now.record.number) }
    {
        match self.record.letter() {
            'R' | 'L' => {
                let other = self.record.byte(3);
                self.values_of(other).is_none() || other <= self.record.byte(1)
            }
            _ => false,
        }
    }

    fn unknown_reference(&self) -> Option<u8>
        ensures { Finds result (Breaks self.now.record.file.now UnknownReference self.now.record.number) }
    {
        if self.names_unknown_option() {
            return Some(1);
        }
        if self.names_unknown_value() {
            return Some(2);
        }
        if self.names_unknown_other() {
            return Some(3);
        }
        None
    }

    fn mask_beyond_values(&self) -> Option<u8>
        ensures { Finds result (Breaks self.now.record.file.now MaskBeyondValues self.now.record.number) }
    {
        if self.record.letter() != 'R' {
            return None;
        }
        let count = self.values_of(self.record.byte(3))?;
        let mask = ValueSet::from_mask(self.record.word(4));
        if mask.is_within(ValueSet::first(count)) {
            None
        } else {
            Some(4)
        }
    }

    fn reserved_byte(&self) -> Option<u8>
        ensures { Finds result (Breaks self.now.record.file.now ReservedByte self.now.record.number) }
    {
        let letter = self.record.letter();
        // By a loop over places: a `find` over them comes to the same, but leaves what it found to be shown by hand.
        for at in 0..RECORD_LENGTH {
            if is_unused(letter, at) && self.record.byte(at) != 0 {
                return Some(at as u8);
            }
        }
        None
    }

    // Whether an R or a P record before this one is for the same.
    #[tactic(auto, using(crate::proofs::Marking::repeated_row, crate::proofs::Marking::repeated_price))]
    fn is_repeated(&self) -> bool
        ensures { Decides result (Repeated self.now.record.file.now self.now.record.number) }
    {
        let option = self.record.byte(1);
        let value = self.record.byte(2);
        match self.record.letter() {
            'R' => self.tally.has_row(option, value, self.record.byte(3)),
            'P' => self.tally.has_price(option, value),
            _ => false,
        }
    }

    fn duplicate(&self) -> Option<u8>
        ensures { Finds result (Breaks self.now.record.file.now Duplicate self.now.record.number) }
    {
        self.is_repeated().then_some(1)
    }

    fn too_many_inequalities(&self) -> Option<u8>
        ensures { Finds result (Breaks self.now.record.file.now TooManyInequalities self.now.record.number) }
    {
        if self.record.letter() == 'L' && self.tally.inequalities() >= MOST_INEQUALITIES {
            return Some(0);
        }
        None
    }
}

// Whether a record with this letter leaves byte `at` unused, so that it must be zero.
fn is_unused(letter: char, at: usize) -> bool
    ensures { result ≡ unused letter at }
{
    match letter {
        'O' => at == 3,
        'R' => at >= 8,
        'L' => at == 2 || at >= 12,
        'P' => at == 3 || at >= 8,
        _ => false,
    }
}
