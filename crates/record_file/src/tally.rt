// What is kept of the records so far.
ghost use Rattle.std.specs.Prelude.{◌≡◌, ℕ, ◌+◌, ◌<◌, ◌≤◌, ◌&&◌, ◌||◌, ◌==◌, List, slice_index};
ghost use Rattle.value_set.specs.Limits.{most_options, most_values};
ghost use Rattle.record_file.specs.Faults.{SoundRecord};
ghost use Rattle.record_file.specs.Layout.{whole_records};
ghost use Rattle.record_file.specs.Tallies.{has_in, row_marked, price_marked, TallyBefore};

use crate::record::Record;
use value_set::{OPTIONS, ValueSet};

// What the records before one at hand give, as far as rules ask for it, in arrays, as the check allocates nothing.
#[derive(Clone, Copy)]
pub(crate) struct Tally {
    // How many O records there are.
    options: usize,
    // For each option that an O record gives, the number of its values; 0 for the others.
    counts: [u8; OPTIONS],
    // For each other option and each option, the values of the option that R records are for.
    rows: [[ValueSet; OPTIONS]; OPTIONS],
    // For each option, the values that P records are for.
    prices: [ValueSet; OPTIONS],
    inequalities: usize,
}

impl Tally {
    pub(crate) fn new() -> Tally
        ensures { (file : List ℕ) → TallyBefore file 0 result }
    {
        Tally {
            options: 0,
            counts: [0; OPTIONS],
            rows: [[ValueSet::EMPTY; OPTIONS]; OPTIONS],
            prices: [ValueSet::EMPTY; OPTIONS],
            inequalities: 0,
        }
    }

    // Takes in a record that is not at fault.
    pub(crate) fn add(&mut self, file: &[u8], number: usize)
        requires there { number < whole_records file.now }
        requires before { TallyBefore file.now number self.old }
        requires sound { (k : ℕ) → k ≤ number → SoundRecord file.now k }
        ensures { TallyBefore file.now (number + 1) self.new }
    {
        let Some(record) = Record::read(file, number) else {
            return;
        };
        match record {
            Record::Domain { option, count, .. } => {
                self.options += 1;
                self.counts[usize::from(option)] = count;
            }
            Record::Row {
                option,
                value,
                other,
                ..
            } => self.add_row(option, value, other),
            Record::Inequality { .. } => self.inequalities += 1,
            Record::Price { option, value, .. } => add_value(&mut self.prices, option, value),
        }
    }

    fn add_row(&mut self, option: u8, value: u8, other: u8)
        requires option { option < most_options }
        requires value { value < most_values }
        requires other { other < most_options }
        ensures rows { (o v p : ℕ) → row_marked self.new o v p
            ≡ (row_marked self.old o v p || (p == other && (o == option && v == value))) }
        ensures prices { self.new.prices ≡ self.old.prices }
        ensures options { self.new.options ≡ self.old.options }
        ensures counts { self.new.counts ≡ self.old.counts }
        ensures inequalities { self.new.inequalities ≡ self.old.inequalities }
    {
        add_value(&mut self.rows[usize::from(other)], option, value);
    }

    // How many O records there were.
    pub(crate) fn options(&self) -> usize
        ensures { result ≡ self.now.options }
    {
        self.options
    }

    // The number of values of an option, 0 where no O record gives it.
    pub(crate) fn count(&self, option: u8) -> u8
        ensures { result ≡ slice_index self.now.counts option }
    {
        self.counts.get(usize::from(option)).copied().unwrap_or(0)
    }

    // Whether an R record was for this value of an option and this other option.
    #[tactic(auto, using(crate::proofs::Marking::unmarked_past))]
    pub(crate) fn has_row(&self, option: u8, value: u8, other: u8) -> bool
        ensures { result ≡ row_marked self.now option value other }
    {
        match self.rows.get(usize::from(other)) {
            Some(toward) => has_value(toward, option, value),
            None => false,
        }
    }

    // Whether a P record was for this value of an option.
    pub(crate) fn has_price(&self, option: u8, value: u8) -> bool
        ensures { result ≡ price_marked self.now option value }
    {
        has_value(&self.prices, option, value)
    }

    pub(crate) fn inequalities(&self) -> usize
        ensures { result ≡ self.now.inequalities }
    {
        self.inequalities
    }
}

// Adds a value to the set of an option.
fn add_value(sets: &mut [ValueSet; OPTIONS], option: u8, value: u8)
    requires option { option < most_options }
    requires value { value < most_values }
    ensures { (o v : ℕ) → has_in sets.new o v ≡ (has_in sets.old o v || (o == option && v == value)) }
{
    let option = usize::from(option);
    sets[option] = sets[option].with(value);
}

// Whether the set of an option has a value; an option that is not there has none.
#[tactic(auto, using(crate::proofs::Marking::none_past))]
fn has_value(sets: &[ValueSet; OPTIONS], option: u8, value: u8) -> bool
    ensures { result ≡ has_in sets.now option value }
{
    sets.get(usize::from(option))
        .is_some_and(|set| set.contains(value))
}
