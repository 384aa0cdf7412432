// Barred books, asked after each bar.
use crate::asked::EVERY;
use crate::group::Group;
use crate::question::{Choice, Question};
use crate::reading::{
    FileReading, Inequalities, JointReading, Reading, RefusedReading, Rows, StruckReading,
};
use crate::samples::MIXED;
use crate::session::Session;
use file_books::{InequalityBook, TableBook};
use rule_book::{BarRefusal, Barred, Book, Joint};
use std::alloc::AllocError;
use std::io;

const DONE: Result<(), BarRefusal> = Ok(());

const REFUSED: Result<(), BarRefusal> = Err(BarRefusal::NoSuchValue);

// An option, a value, and what is to come of barring it.
#[derive(Clone, Copy)]
struct Bar(usize, u8, Result<(), BarRefusal>);

// The options have 4, 4 and 2 values.
const BARS: [Bar; 24] = [
    Bar(3, 0, REFUSED),
    Bar(12, 0, REFUSED),
    Bar(usize::MAX, 0, REFUSED),
    Bar(0, 4, REFUSED),
    Bar(2, 2, REFUSED),
    Bar(0, 31, REFUSED),
    Bar(0, 32, REFUSED),
    Bar(1, 255, REFUSED),
    Bar(0, 3, DONE),
    Bar(0, 3, REFUSED),
    Bar(1, 3, DONE),
    Bar(1, 1, DONE),
    Bar(1, 3, REFUSED),
    Bar(3, 3, REFUSED),
    Bar(2, 1, DONE),
    Bar(2, 1, REFUSED),
    Bar(2, 0, DONE),
    Bar(2, 0, REFUSED),
    Bar(0, 0, DONE),
    Bar(0, 1, DONE),
    Bar(0, 2, DONE),
    Bar(0, 2, REFUSED),
    Bar(0, 32, REFUSED),
    Bar(1, 0, DONE),
];

// A refused file has value 0 of option 0 alone.
const BARS_OF_REFUSED: [Bar; 5] = [
    Bar(0, 1, REFUSED),
    Bar(1, 0, REFUSED),
    Bar(0, 0, DONE),
    Bar(0, 0, REFUSED),
    Bar(1, 0, REFUSED),
];

pub fn run(session: &mut Session) -> io::Result<()> {
    let file = MIXED.file(session.heap())?;
    let file = file.as_slice();
    let rows = FileReading::new(file, Rows);
    let inequalities = FileReading::new(file, Inequalities);
    session.run("barred table book", |group| {
        compare_barred(group, &BARS, TableBook::new(file), &rows)
    })?;
    session.run("barred inequality book", |group| {
        compare_barred(group, &BARS, InequalityBook::new(file), &inequalities)
    })?;
    session.run("barred joint book", |group| {
        let book = Joint::new(TableBook::new(file), InequalityBook::new(file));
        let reading = JointReading {
            left: rows,
            right: inequalities,
        };
        compare_barred(group, &BARS, book, &reading)
    })?;
    session.run("barred book of a refused file", |group| {
        compare_barred(
            group,
            &BARS_OF_REFUSED,
            TableBook::new(&[]),
            &RefusedReading,
        )
    })
}

// Compares before any bar, after each, and once the book below is taken out again.
fn compare_barred<B: Book + Drop, R: Reading>(
    group: &mut Group,
    bars: &[Bar],
    book: B,
    below: &R,
) -> Result<(), AllocError> {
    let mut barred = Barred::new(book);
    EVERY.compare(group, &barred, below);
    let mut reading = StruckReading::new(group.heap(), below);
    for &Bar(option, value, expected) in bars {
        let choice = Choice { option, value };
        let got = barred.bar(option, value);
        group.compare(
            Question::Bar(choice),
            number_of(got),
            expected_number(expected),
        );
        if expected.is_ok() {
            reading.strike(choice)?;
        }
        EVERY.compare(group, &barred, &reading);
    }
    EVERY.compare(group, &barred.into_below(), below);
    Ok(())
}

// The number of the refusal, 0 if the value was barred.
fn number_of(bar: Result<(), BarRefusal>) -> u64 {
    match bar {
        Ok(()) => 0,
        Err(refusal) => u64::from(refusal.number()),
    }
}

// The number that is to be told: 13 is written down here, and not asked of the refusal.
fn expected_number(bar: Result<(), BarRefusal>) -> u64 {
    match bar {
        Ok(()) => 0,
        Err(BarRefusal::NoSuchValue) => 13,
    }
}
