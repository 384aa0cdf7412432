// Files typed by hand, with some of their rows worked out by hand.
use crate::asked::EVERY;
use crate::group::Group;
use crate::question::{Choice, Question};
use crate::reading::{FileReading, Inequalities, Rows};
use crate::sample::{Comparison, Sample, Samples};
use crate::session::Session;
use case_records::{NO_NAME, Record};
use file_books::{InequalityBook, TableBook};
use rule_book::Book;
use std::alloc::AllocError;
use std::io;

// Three options with R and L records among each other.
pub const MIXED: Sample = Sample {
    name: "R and L records",
    records: &[
        Record::Domain(0, 4, NO_NAME),
        Record::Domain(1, 4, NO_NAME),
        Record::Domain(2, 2, NO_NAME),
        Record::Row(0, 3, 1, 10),
        Record::Inequality(0, 1, 3, 1, 3),
        Record::Row(1, 0, 2, 1),
        Record::Price(0, 2, 7),
        Record::Inequality(0, 1, -1, 1, -2),
        Record::Row(0, 0, 2, 2),
        Record::Inequality(1, 2, 1, -3, 0),
    ],
};

const SAMPLES: Samples = Samples {
    before: &[],
    each: &[
        MIXED,
        Sample {
            name: "one option of 32 values",
            records: &[Record::Domain(0, 32, NO_NAME)],
        },
        Sample {
            name: "R records with every bit and none",
            records: &[
                Record::Domain(0, 2, NO_NAME),
                Record::Domain(1, 32, NO_NAME),
                Record::Domain(2, 1, NO_NAME),
                Record::Row(0, 1, 1, u32::MAX),
                Record::Row(0, 0, 1, 1 << 31),
                Record::Row(1, 31, 2, 0),
                Record::Row(1, 0, 2, 1),
            ],
        },
        Sample {
            name: "an R record between the first and the last of 12",
            records: &[
                Record::Domain(0, 3, NO_NAME),
                Record::Domain(1, 1, NO_NAME),
                Record::Domain(2, 1, NO_NAME),
                Record::Domain(3, 1, NO_NAME),
                Record::Domain(4, 1, NO_NAME),
                Record::Domain(5, 1, NO_NAME),
                Record::Domain(6, 1, NO_NAME),
                Record::Domain(7, 1, NO_NAME),
                Record::Domain(8, 1, NO_NAME),
                Record::Domain(9, 1, NO_NAME),
                Record::Domain(10, 2, NO_NAME),
                Record::Domain(11, 3, NO_NAME),
                Record::Row(0, 2, 11, 5),
                Record::Row(10, 1, 11, 6),
                Record::Inequality(0, 11, -1, -1, -3),
                Record::Inequality(10, 11, 2, -1, 0),
            ],
        },
        Sample {
            name: "options and values of the same numbers",
            records: &[
                Record::Domain(0, 3, NO_NAME),
                Record::Domain(1, 3, NO_NAME),
                Record::Domain(2, 3, NO_NAME),
                Record::Row(0, 1, 2, 1),
                Record::Row(1, 0, 2, 2),
                Record::Row(0, 2, 1, 4),
                Record::Inequality(0, 2, 1, 0, 1),
                Record::Inequality(1, 2, 0, 1, 1),
            ],
        },
    ],
};

// 3a + b ≥ 3 and b − a ≥ −2: twelve of sixteen pairs go together. The R record plays no part in that.
const TWELVE_PAIRS: Sample = Sample {
    name: "twelve pairs",
    records: &[
        Record::Domain(0, 4, NO_NAME),
        Record::Domain(1, 4, NO_NAME),
        Record::Inequality(0, 1, 3, 1, 3),
        Record::Row(0, 3, 1, 10),
        Record::Inequality(0, 1, -1, 1, -2),
    ],
};

// An option, its value, another option, and the mask of that row.
#[derive(Clone, Copy)]
struct WorkedRow(usize, u8, usize, u32);

const TWELVE_PAIRS_ROWS: [WorkedRow; 8] = [
    WorkedRow(0, 0, 1, 0b1000),
    WorkedRow(0, 1, 1, 0b1111),
    WorkedRow(0, 2, 1, 0b1111),
    WorkedRow(0, 3, 1, 0b1110),
    WorkedRow(1, 0, 0, 0b0110),
    WorkedRow(1, 1, 0, 0b1110),
    WorkedRow(1, 2, 0, 0b1110),
    WorkedRow(1, 3, 0, 0b1111),
];

const ROW_RECORD_ROWS: [WorkedRow; 8] = [
    WorkedRow(0, 0, 1, 0b1111),
    WorkedRow(0, 1, 1, 0b1111),
    WorkedRow(0, 2, 1, 0b1111),
    WorkedRow(0, 3, 1, 0b1010),
    WorkedRow(1, 0, 0, 0b0111),
    WorkedRow(1, 1, 0, 0b1111),
    WorkedRow(1, 2, 0, 0b0111),
    WorkedRow(1, 3, 0, 0b1111),
];

pub fn run(session: &mut Session) -> io::Result<()> {
    session.run("rows worked out by hand", compare_worked_rows)?;
    session.run("table books of files typed by hand", |group| {
        SAMPLES.compare(group, &Rows)
    })?;
    session.run("inequality books of files typed by hand", |group| {
        SAMPLES.compare(group, &Inequalities)
    })
}

fn compare_worked_rows(group: &mut Group) -> Result<(), AllocError> {
    let file = TWELVE_PAIRS.file(group.heap())?;
    compare_worked(
        group,
        &InequalityBook::new(file.as_slice()),
        &TWELVE_PAIRS_ROWS,
    );
    compare_worked(group, &TableBook::new(file.as_slice()), &ROW_RECORD_ROWS);
    Ok(())
}

fn compare_worked<B: Book>(group: &mut Group, book: &B, rows: &[WorkedRow]) {
    for &WorkedRow(option, value, other, mask) in rows {
        let row = book.row(option, value, other).mask();
        let question = Question::Row(Choice { option, value }, other);
        group.compare(question, u64::from(row), u64::from(mask));
    }
}

impl Comparison for Rows {
    fn compare(&self, group: &mut Group, file: &[u8]) {
        EVERY.compare(group, &TableBook::new(file), &FileReading::new(file, Rows));
    }
}

impl Comparison for Inequalities {
    fn compare(&self, group: &mut Group, file: &[u8]) {
        let reading = FileReading::new(file, Inequalities);
        EVERY.compare(group, &InequalityBook::new(file), &reading);
    }
}
