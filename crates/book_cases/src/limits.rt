// Inequality books at the limits of their numbers.
use crate::asked::Asked;
use crate::group::Group;
use crate::reading::{FileReading, Inequalities};
use crate::sample::{Comparison, Sample, Samples};
use crate::session::Session;
use case_records::{NO_NAME, Record};
use file_books::InequalityBook;
use std::alloc::AllocError;
use std::io;

const COEFFICIENTS: [i16; 6] = [i16::MIN, -2, 0, 1, 3, i16::MAX];

// With the coefficients above and values up to 31 the sums go from 2 · 31 · −32768 to 2 · 31 · 32767.
const BOUNDS: [i32; 15] = [
    i32::MIN,
    -2_031_617,
    -2_031_616,
    -2_031_615,
    -65_536,
    -2,
    -1,
    0,
    1,
    3,
    32_767,
    2_031_553,
    2_031_554,
    2_031_555,
    i32::MAX,
];

const ENDS: Asked<'static> = Asked {
    options: &[0, 1, 2],
    values: &[0, 1, 30, 31],
};

const MOST_RULES: i32 = 16;

const ALL_GO: Record = Record::Inequality(0, 1, 0, 0, 0);

const NONE_GO: Record = Record::Inequality(0, 1, 0, 0, 1);

const LEAST: Record = Record::Inequality(0, 1, i16::MIN, i16::MIN, i32::MIN);

const GREATEST: Record = Record::Inequality(0, 1, i16::MAX, i16::MAX, i32::MAX);

const TWO_OPTIONS: [Record; 2] = [
    Record::Domain(0, 32, NO_NAME),
    Record::Domain(1, 32, NO_NAME),
];

const SAMPLES: Samples = Samples {
    before: &TWO_OPTIONS,
    each: &[
        Sample {
            name: "no rule",
            records: &[],
        },
        Sample {
            name: "a rule that every pair keeps",
            records: &[ALL_GO],
        },
        Sample {
            name: "a rule that no pair keeps",
            records: &[NONE_GO],
        },
        Sample {
            name: "both of them",
            records: &[ALL_GO, NONE_GO],
        },
        Sample {
            name: "the least numbers",
            records: &[LEAST],
        },
        Sample {
            name: "the greatest numbers",
            records: &[GREATEST],
        },
        Sample {
            name: "several rules on one pair",
            records: &[
                Record::Inequality(0, 1, 1, 1, 10),
                Record::Inequality(0, 1, -1, -1, -50),
                Record::Inequality(0, 1, 2, -1, -3),
                Record::Inequality(0, 1, -3, 2, -20),
            ],
        },
        Sample {
            name: "a rule twice",
            records: &[
                Record::Inequality(0, 1, -7, 5, 0),
                Record::Inequality(0, 1, -7, 5, 0),
            ],
        },
        Sample {
            name: "a sum of exactly c",
            records: &[
                Record::Inequality(0, 1, 1, 0, 31),
                Record::Inequality(0, 1, 0, -1, 0),
            ],
        },
    ],
};

pub fn run(session: &mut Session) -> io::Result<()> {
    session.run("inequality books with rules typed by hand", |group| {
        SAMPLES.compare(group, &Inequalities)
    })?;
    session.run("inequality books with sixteen rules", |group| {
        compare_stricter(group)?;
        compare_spread(group)
    })?;
    session.run(
        "inequality books with a rule made of p, q and c",
        compare_bounds,
    )
}

fn compare_bounds(group: &mut Group) -> Result<(), AllocError> {
    for (number, &c) in BOUNDS.iter().enumerate() {
        group.begin("the c of that number", number);
        for p in COEFFICIENTS {
            for q in COEFFICIENTS {
                compare_rule(group, Record::Inequality(0, 1, p, q, c))?;
            }
        }
    }
    Ok(())
}

fn compare_rule(group: &mut Group, rule: Record) -> Result<(), AllocError> {
    let [first, second] = TWO_OPTIONS;
    let records = [first, second, rule];
    let file: Vec<u8> = records
        .into_iter()
        .flat_map(Record::bytes)
        .collect(group.heap())?;
    let reading = FileReading::new(file.as_slice(), Inequalities);
    ENDS.compare(group, &InequalityBook::new(file.as_slice()), &reading);
    Ok(())
}

// Sixteen rules, each stricter than those before it, so that the last is missed where it is left out.
fn compare_stricter(group: &mut Group) -> Result<(), AllocError> {
    let options = (0..2).map(|option| Record::Domain(option, 9, NO_NAME));
    let rules = (1..=MOST_RULES).map(|c| Record::Inequality(0, 1, 1, 1, c));
    let records = options.chain(rules);
    let file: Vec<u8> = records.flat_map(Record::bytes).collect(group.heap())?;
    group.begin("sixteen rules on one pair", 0);
    Inequalities.compare(group, file.as_slice());
    Ok(())
}

// A rule for each two of six options, and a sixteenth for the first and the seventh.
fn compare_spread(group: &mut Group) -> Result<(), AllocError> {
    let options = (0..=6).map(|option| Record::Domain(option, 5, NO_NAME));
    let mut file: Vec<u8> = options.flat_map(Record::bytes).collect(group.heap())?;
    // The number goes into each record.
    for j in 1..=5u8 {
        let rules = (0..j).map(|i| Record::Inequality(i, j, 2, -1, i32::from(i) - 2));
        file.extend(rules.flat_map(Record::bytes))?;
    }
    file.extend_from_slice(&Record::Inequality(0, 6, -1, 3, 4).bytes())?;
    group.begin("sixteen rules on sixteen pairs", 0);
    Inequalities.compare(group, file.as_slice());
    Ok(())
}
