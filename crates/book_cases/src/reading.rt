// What the records of a file say, read off the bytes anew for each question, and what follows for books over books.
use crate::question::Choice;
use case_records::RECORD_LENGTH;
use std::alloc::{AllocFailed, Global};
use value_set::ValueSet;

// The greatest value that an option can have.
pub const LAST_VALUE: u8 = 31;

// A meaning of a book.
pub trait Reading {
    fn options(&self) -> usize;

    fn has(&self, choice: Choice) -> bool;

    // Whether a value of an option goes with a value of a higher option.
    fn together(&self, lower: Choice, higher: Choice) -> bool;
}

pub fn set_of<R: Reading>(reading: &R, option: usize) -> ValueSet {
    set_that(|value| reading.has(Choice { option, value }))
}

pub fn row_of<R: Reading>(reading: &R, choice: Choice, other: usize) -> ValueSet {
    if choice.option == other || !reading.has(choice) {
        return ValueSet::EMPTY;
    }
    set_that(|value| {
        let partner = Choice {
            option: other,
            value,
        };
        reading.has(partner) && goes_with(reading, choice, partner)
    })
}

// The values that pass a test, counted here and not by the steps of a set, as the books go by those.
fn set_that<F: Fn(u8) -> bool>(passes: F) -> ValueSet
    requires { F.IsAlwaysCallable passes }
{
    (0..=LAST_VALUE)
        .filter(|value| passes(*value))
        .fold(ValueSet::EMPTY, ValueSet::with)
}

fn goes_with<R: Reading>(reading: &R, choice: Choice, partner: Choice) -> bool {
    if choice.option < partner.option {
        reading.together(choice, partner)
    } else {
        reading.together(partner, choice)
    }
}

// A kind of record that says what does not go together.
pub trait Rules {
    fn forbids(&self, record: &[u8], lower: Choice, higher: Choice) -> bool;
}

#[derive(Clone, Copy)]
pub struct Rows;

impl Rules for Rows {
    fn forbids(&self, record: &[u8], lower: Choice, higher: Choice) -> bool {
        let &[b'R', i, a, j, m0, m1, m2, m3, ..] = record else {
            return false;
        };
        let mask = u32::from_le_bytes([m0, m1, m2, m3]);
        usize::from(i) == lower.option
            && a == lower.value
            && usize::from(j) == higher.option
            && !ValueSet::from_mask(mask).contains(higher.value)
    }
}

#[derive(Clone, Copy)]
pub struct Inequalities;

impl Rules for Inequalities {
    fn forbids(&self, record: &[u8], lower: Choice, higher: Choice) -> bool {
        let &[b'L', i, _, j, p0, p1, q0, q1, c0, c1, c2, c3, ..] = record else {
            return false;
        };
        let p = i64::from(i16::from_le_bytes([p0, p1]));
        let q = i64::from(i16::from_le_bytes([q0, q1]));
        let c = i64::from(i32::from_le_bytes([c0, c1, c2, c3]));
        let sum = p
            .wrapping_mul(i64::from(lower.value))
            .wrapping_add(q.wrapping_mul(i64::from(higher.value)));
        usize::from(i) == lower.option && usize::from(j) == higher.option && sum < c
    }
}

// The reading of a file that is known to be accepted, in which records of one kind count.
#[derive(Clone, Copy)]
pub struct FileReading<'a, R> {
    file: &'a [u8],
    rules: R,
}

impl<'a, R> FileReading<'a, R> {
    pub fn new(file: &'a [u8], rules: R) -> FileReading<'a, R> {
        FileReading { file, rules }
    }
}

impl<'a, R: Rules> Reading for FileReading<'a, R> {
    fn options(&self) -> usize {
        self.file
            .chunks(RECORD_LENGTH)
            .filter(|record| record.starts_with(b"O"))
            .count()
    }

    // The O records come first, so that option i is record i.
    fn has(&self, choice: Choice) -> bool {
        let start = choice.option.saturating_mul(RECORD_LENGTH);
        match self.file.get(start..) {
            Some([b'O', _, count, ..]) => choice.value < *count,
            _ => false,
        }
    }

    fn together(&self, lower: Choice, higher: Choice) -> bool {
        !self
            .file
            .chunks(RECORD_LENGTH)
            .any(|record| self.rules.forbids(record, lower, higher))
    }
}

// The reading of a refused file.
#[derive(Clone, Copy)]
pub struct RefusedReading;

impl Reading for RefusedReading {
    fn options(&self) -> usize {
        1
    }

    fn has(&self, choice: Choice) -> bool {
        choice.option == 0 && choice.value == 0
    }

    fn together(&self, _lower: Choice, _higher: Choice) -> bool {
        true
    }
}

#[derive(Clone, Copy)]
pub struct JointReading<X, Y> {
    pub left: X,
    pub right: Y,
}

impl<X: Reading, Y: Reading> Reading for JointReading<X, Y> {
    fn options(&self) -> usize {
        self.left.options().min(self.right.options())
    }

    fn has(&self, choice: Choice) -> bool {
        self.left.has(choice) && self.right.has(choice)
    }

    fn together(&self, lower: Choice, higher: Choice) -> bool {
        self.left.together(lower, higher) && self.right.together(lower, higher)
    }
}

// A reading with some values struck out.
#[derive(Drop)]
pub struct StruckReading<'a, R> {
    below: &'a R,
    struck: Vec<Choice>,
}

impl<'a, R> StruckReading<'a, R> {
    pub fn new(heap: Global, below: &'a R) -> StruckReading<'a, R> {
        StruckReading {
            below,
            struck: Vec::new(heap),
        }
    }

    pub fn strike(&mut self, choice: Choice) -> Result<(), AllocFailed<Choice>> {
        self.struck.push(choice)
    }
}

impl<'a, R: Reading> Reading for StruckReading<'a, R> {
    fn options(&self) -> usize {
        self.below.options()
    }

    fn has(&self, choice: Choice) -> bool {
        !self.struck.contains(&choice) && self.below.has(choice)
    }

    fn together(&self, lower: Choice, higher: Choice) -> bool {
        self.below.together(lower, higher)
    }
}
