// Table books of files made by rule: a pattern of masks for every two options.
use crate::asked::{Asked, EVERY};
use crate::group::Group;
use crate::reading::{FileReading, Rows};
use crate::session::Session;
use case_records::{NO_NAME, Record};
use file_books::TableBook;
use std::alloc::{AllocError, Global};
use std::io;
use value_set::ValueSet;

// The number of values of each option.
const SHAPES: [&[u8]; 8] = [
    &[1],
    &[2, 2],
    &[1, 32],
    &[32, 3],
    &[5, 4, 3],
    &[31, 2, 8],
    &[3, 1, 4, 1, 5],
    &[2, 2, 3, 2, 2, 1, 2, 2, 2, 1, 2, 3],
];

const LARGEST_SHAPE: [u8; 12] = [32; 12];

// A file of the largest shape is long, and few questions are asked about it.
const FEW: Asked<'static> = Asked {
    options: &[0, 4, 5, 11, 12],
    values: &[0, 17, 31, 32],
};

#[derive(Clone, Copy)]
enum Pattern {
    NoRecord,
    Full,
    Empty,
    OneClear,
    OneSet,
    Scattered,
}

// Each pattern, with the name of its group.
const PATTERNS: [(Pattern, &str); 6] = [
    (Pattern::NoRecord, "table books with no R record"),
    (Pattern::Full, "table books with full masks"),
    (Pattern::Empty, "table books with empty masks"),
    (Pattern::OneClear, "table books with one bit clear"),
    (Pattern::OneSet, "table books with one bit set"),
    (Pattern::Scattered, "table books with scattered bits"),
];

impl Pattern {
    // The values of j, of which there are `count`, that go with value a of i, if there is a record for them.
    fn row(self, i: u8, a: u8, j: u8, count: u8) -> Option<ValueSet> {
        let full = ValueSet::first(count);
        let one = i.wrapping_add(a).wrapping_add(j) % count.max(1);
        match self {
            Pattern::NoRecord => None,
            Pattern::Full => Some(full),
            Pattern::Empty => Some(ValueSet::EMPTY),
            Pattern::OneClear => Some(full.without(one)),
            Pattern::OneSet => Some(ValueSet::EMPTY.with(one)),
            Pattern::Scattered if a % 3 == 1 => None,
            Pattern::Scattered => Some(full.common(scattered(i, a, j))),
        }
    }

    fn record(self, i: u8, a: u8, j: u8, count: u8) -> Option<Record> {
        let row = self.row(i, a, j, count)?;
        Some(Record::Row(i, a, j, row.mask()))
    }
}

// Some set that shows no pattern, made by a multiplicative hash.
fn scattered(i: u8, a: u8, j: u8) -> ValueSet {
    let place = u32::from_le_bytes([a, j, i, 1]);
    ValueSet::from_mask(place.wrapping_mul(2_654_435_761).rotate_left(11))
}

pub fn run(session: &mut Session) -> io::Result<()> {
    for (pattern, name) in PATTERNS {
        session.run(name, |group| compare_pattern(group, pattern))?;
    }
    Ok(())
}

fn compare_pattern(group: &mut Group, pattern: Pattern) -> Result<(), AllocError> {
    for (number, shape) in SHAPES.iter().enumerate() {
        group.begin("the shape of that number", number);
        compare_made(EVERY, group, pattern, shape)?;
    }
    group.begin("the largest shape", 0);
    compare_made(FEW, group, pattern, &LARGEST_SHAPE)
}

fn compare_made(
    asked: Asked,
    group: &mut Group,
    pattern: Pattern,
    shape: &[u8],
) -> Result<(), AllocError> {
    let file = made_file(group.heap(), pattern, shape)?;
    let reading = FileReading::new(file.as_slice(), Rows);
    asked.compare(group, &TableBook::new(file.as_slice()), &reading);
    Ok(())
}

fn made_file(heap: Global, pattern: Pattern, shape: &[u8]) -> Result<Vec<u8>, AllocError> {
    let domains = (0u8..)
        .zip(shape)
        .map(|(option, &count)| Record::Domain(option, count, NO_NAME));
    let mut file: Vec<u8> = domains.flat_map(Record::bytes).collect(heap)?;
    for (j, &count) in (0u8..).zip(shape) {
        for (i, &values) in (0..j).zip(shape) {
            let rows = (0..values).filter_map(|a| pattern.record(i, a, j, count));
            file.extend(rows.flat_map(Record::bytes))?;
        }
    }
    Ok(file)
}
