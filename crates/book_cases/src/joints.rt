// Joint books.
use crate::asked::EVERY;
use crate::group::Group;
use crate::reading::{FileReading, Inequalities, JointReading, Rows};
use crate::sample::{Comparison, Sample, Samples};
use crate::samples::MIXED;
use crate::session::Session;
use case_records::{NO_NAME, Record};
use file_books::{InequalityBook, TableBook};
use rule_book::Joint;
use std::alloc::AllocError;
use std::io;

// Books with other numbers of options and values than each other.
const SAMPLES: Samples = Samples {
    before: &[],
    each: &[
        MIXED,
        Sample {
            name: "one option",
            records: &[Record::Domain(0, 3, NO_NAME)],
        },
        Sample {
            name: "two options",
            records: &[
                Record::Domain(0, 32, NO_NAME),
                Record::Domain(1, 3, NO_NAME),
                Record::Row(0, 3, 1, 3),
                Record::Row(0, 31, 1, 0),
                Record::Inequality(0, 1, 1, -1, -1),
            ],
        },
        Sample {
            name: "four options",
            records: &[
                Record::Domain(0, 3, NO_NAME),
                Record::Domain(1, 6, NO_NAME),
                Record::Domain(2, 4, NO_NAME),
                Record::Domain(3, 2, NO_NAME),
                Record::Row(0, 2, 2, 12),
                Record::Row(1, 1, 3, 2),
                Record::Inequality(0, 1, 1, 1, 2),
                Record::Inequality(2, 3, -1, 2, -1),
            ],
        },
        Sample {
            name: "twelve options",
            records: &[
                Record::Domain(0, 2, NO_NAME),
                Record::Domain(1, 2, NO_NAME),
                Record::Domain(2, 1, NO_NAME),
                Record::Domain(3, 2, NO_NAME),
                Record::Domain(4, 2, NO_NAME),
                Record::Domain(5, 2, NO_NAME),
                Record::Domain(6, 2, NO_NAME),
                Record::Domain(7, 2, NO_NAME),
                Record::Domain(8, 2, NO_NAME),
                Record::Domain(9, 2, NO_NAME),
                Record::Domain(10, 2, NO_NAME),
                Record::Domain(11, 2, NO_NAME),
                Record::Row(0, 1, 3, 1),
                Record::Row(4, 0, 11, 2),
                Record::Inequality(1, 11, 1, 1, 1),
            ],
        },
    ],
};

pub fn run(session: &mut Session) -> io::Result<()> {
    session.run(
        "joint books of a table book and an inequality book",
        compare_every_two,
    )?;
    let first = MIXED.file(session.heap())?;
    let nested = Nested {
        first: first.as_slice(),
    };
    session.run(
        "joint books of joint books",
        |group| SAMPLES.compare(group, &nested),
    )
}

fn compare_every_two(group: &mut Group) -> Result<(), AllocError> {
    for left in SAMPLES.each {
        let first = left.file(group.heap())?;
        for (number, right) in SAMPLES.each.iter().enumerate() {
            group.begin(left.name, number);
            let second = right.file(group.heap())?;
            compare_joint(group, first.as_slice(), second.as_slice());
        }
    }
    Ok(())
}

fn compare_joint(group: &mut Group, first: &[u8], second: &[u8]) {
    let book = Joint::new(TableBook::new(first), InequalityBook::new(second));
    let reading = JointReading {
        left: FileReading::new(first, Rows),
        right: FileReading::new(second, Inequalities),
    };
    EVERY.compare(group, &book, &reading);
}

// A joint book over the first file and the joint book of both.
#[derive(Clone, Copy)]
struct Nested<'a> {
    first: &'a [u8],
}

impl<'a> Comparison for Nested<'a> {
    fn compare(&self, group: &mut Group, second: &[u8]) {
        let first = self.first;
        let below = Joint::new(TableBook::new(first), TableBook::new(second));
        let book = Joint::new(InequalityBook::new(first), below);
        let reading = JointReading {
            left: FileReading::new(first, Inequalities),
            right: JointReading {
                left: FileReading::new(first, Rows),
                right: FileReading::new(second, Rows),
            },
        };
        EVERY.compare(group, &book, &reading);
    }
}
