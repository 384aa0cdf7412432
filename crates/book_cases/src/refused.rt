// Books of files that the check refuses.
use crate::asked::EVERY;
use crate::group::Group;
use crate::reading::{FileReading, JointReading, RefusedReading, Rows};
use crate::sample::{Comparison, Sample, Samples};
use crate::samples::MIXED;
use crate::session::Session;
use case_records::{NO_NAME, RECORD_LENGTH, Record};
use file_books::{InequalityBook, TableBook};
use record_file::LONGEST_FILE;
use rule_book::Joint;
use std::alloc::AllocError;
use std::{io, iter};

const RULE: Record = Record::Inequality(0, 1, 1, 1, 1);

pub const REFUSED: Samples = Samples {
    before: &[Record::Domain(0, 2, NO_NAME), Record::Domain(1, 3, NO_NAME)],
    each: &[
        Sample {
            name: "an unknown letter",
            records: &[Record::Row(0, 0, 1, 1), Record::Odd(b'Q', 0)],
        },
        Sample {
            name: "an option out of its place",
            records: &[Record::Row(0, 0, 1, 1), Record::Domain(2, 2, NO_NAME)],
        },
        Sample {
            name: "an option without a value",
            records: &[Record::Domain(2, 0, NO_NAME)],
        },
        Sample {
            name: "an option of 33 values",
            records: &[Record::Domain(2, 33, NO_NAME)],
        },
        Sample {
            name: "an unknown option",
            records: &[Record::Inequality(0, 2, 1, 1, 1)],
        },
        Sample {
            name: "a mask with a bit too high",
            records: &[Record::Price(0, 1, 5), Record::Row(0, 0, 1, 8)],
        },
        Sample {
            name: "a last byte that is not zero",
            records: &[Record::Price(0, 1, 5), Record::Odd(b'P', 1)],
        },
        Sample {
            name: "an R record twice",
            records: &[Record::Row(0, 0, 1, 1), Record::Row(0, 0, 1, 2)],
        },
        Sample {
            name: "a P record twice",
            records: &[Record::Price(0, 1, 5), Record::Price(0, 1, 5)],
        },
        Sample {
            name: "seventeen L records",
            records: &[
                RULE, RULE, RULE, RULE, RULE, RULE, RULE, RULE, RULE, RULE, RULE, RULE, RULE, RULE,
                RULE, RULE, RULE,
            ],
        },
    ],
};

pub fn run(session: &mut Session) -> io::Result<()> {
    session.run("books of refused files", |group| {
        REFUSED.compare(group, &RefusedReading)
    })?;
    session.run("books of files of a refused length", compare_odd_lengths)?;
    session.run(
        "joint book of an accepted and a refused file",
        compare_joint,
    )
}

fn compare_odd_lengths(group: &mut Group) -> Result<(), AllocError> {
    group.begin("no record", 0);
    RefusedReading.compare(group, &[]);
    group.begin("a record without its last byte", 0);
    let mut file = MIXED.file(group.heap())?;
    file.pop();
    RefusedReading.compare(group, file.as_slice());
    group.begin("a record too many", 0);
    let too_many = LONGEST_FILE / RECORD_LENGTH + 1;
    let records = iter::repeat_n(Record::Domain(0, 2, NO_NAME), too_many);
    let file: Vec<u8> = records.flat_map(Record::bytes).collect(group.heap())?;
    RefusedReading.compare(group, file.as_slice());
    Ok(())
}

impl Comparison for RefusedReading {
    fn compare(&self, group: &mut Group, file: &[u8]) {
        EVERY.compare(group, &TableBook::new(file), self);
        EVERY.compare(group, &InequalityBook::new(file), self);
    }
}

fn compare_joint(group: &mut Group) -> Result<(), AllocError> {
    let file = MIXED.file(group.heap())?;
    let book = Joint::new(TableBook::new(file.as_slice()), InequalityBook::new(&[]));
    let reading = JointReading {
        left: FileReading::new(file.as_slice(), Rows),
        right: RefusedReading,
    };
    EVERY.compare(group, &book, &reading);
    Ok(())
}
