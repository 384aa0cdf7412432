// Files made by rule: too many, or too long, to stand in the table.
use crate::runner::Runner;
use crate::verdicts::Verdict;
use case_records::{NAME_LENGTH, NO_NAME, RECORD_LENGTH, Record};
use record_file::{LONGEST_FILE, Layer};
use std::alloc::{AllocError, Global};
use std::{io, iter};

const OPTIONS: u8 = 12;

const VALUES: u8 = 32;

const INEQUALITIES: usize = 16;

// The records of the fullest file: 12 options, 66 * 32 rows, 16 inequalities and 12 * 32 prices.
const FULLEST: usize = 2524;

const ONE_MORE_OPTION: Record = Record::Domain(OPTIONS, VALUES, NO_NAME);

const FIRST_ROW: Record = Record::Row(0, 0, 1, u32::MAX);

const LAST_ROW: Record = Record::Row(10, 31, 11, 0);

const INEQUALITY: Record = Record::Inequality(0, 1, 1, 1, 0);

const LAST_PRICE: Record = Record::Price(11, 31, 1);

pub fn run(runner: &mut Runner) -> io::Result<()> {
    runner.run_group("every_byte_in_a_name", run_names)?;
    runner.run_group("every_byte_as_a_letter", run_letters)?;
    run_fullest(runner)?;
    run_longest(runner)
}

fn run_names(runner: &mut Runner) -> io::Result<()> {
    // The places are counted, since each case is named by its place.
    for place in 0..NAME_LENGTH {
        for byte in 0..=u8::MAX {
            let mut name = NO_NAME;
            name[place] = byte;
            runner.show_if_wrong(
                format_args!("name_with_{byte}_at_{place}"),
                &Record::Domain(0, 2, name).bytes(),
                Verdict::ACCEPTED,
            )?;
        }
    }
    Ok(())
}

fn run_letters(runner: &mut Runner) -> io::Result<()> {
    // The number is the case.
    for letter in 0..=u8::MAX {
        let expected = match letter {
            b'O' => Verdict::ACCEPTED,
            b'L' | b'P' | b'R' => Verdict::refused(7, 0, 1, Layer::Record),
            _ => Verdict::refused(4, 0, 0, Layer::Record),
        };
        let mut bytes = Record::Domain(0, 2, NO_NAME).bytes();
        bytes[0] = letter;
        runner.show_if_wrong(format_args!("letter_{letter}"), &bytes, expected)?;
    }
    Ok(())
}

fn run_fullest(runner: &mut Runner) -> io::Result<()> {
    let full = fullest(runner.heap())?;
    runner.show("fullest_file", full.as_slice(), Verdict::ACCEPTED)?;
    let duplicate = Verdict::refused(10, FULLEST, 1, Layer::Book);
    let more = [
        (
            "and_an_option",
            ONE_MORE_OPTION,
            Verdict::refused(5, FULLEST, 1, Layer::Record),
        ),
        ("and_its_first_row", FIRST_ROW, duplicate),
        ("and_its_last_row", LAST_ROW, duplicate),
        (
            "and_an_inequality",
            INEQUALITY,
            Verdict::refused(11, FULLEST, 0, Layer::Book),
        ),
        ("and_a_price", LAST_PRICE, duplicate),
    ];
    for (what, record, expected) in more {
        let mut bytes = full.clone()?;
        bytes.extend_from_slice(&record.bytes())?;
        runner.show(
            format_args!("fullest_file_{what}"),
            bytes.as_slice(),
            expected,
        )?;
    }
    run_last_replaced(runner, full)
}

// The first record that can have a duplicate has it at the very end.
fn run_last_replaced(runner: &mut Runner, mut bytes: Vec<u8>) -> io::Result<()> {
    bytes.truncate((FULLEST - 1) * RECORD_LENGTH);
    bytes.extend_from_slice(&FIRST_ROW.bytes())?;
    runner.show(
        "fullest_file_with_its_first_row_last",
        bytes.as_slice(),
        Verdict::refused(10, FULLEST - 1, 1, Layer::Book),
    )
}

fn run_longest(runner: &mut Runner) -> io::Result<()> {
    let mut bytes = fullest(runner.heap())?;
    let more = LONGEST_FILE / RECORD_LENGTH - FULLEST;
    bytes.extend(iter::repeat_n(LAST_PRICE, more).flat_map(Record::bytes))?;
    runner.show(
        "longest_file",
        bytes.as_slice(),
        Verdict::refused(10, FULLEST, 1, Layer::Book),
    )?;
    bytes.push(0)?;
    runner.show(
        "longest_file_and_a_byte",
        bytes.as_slice(),
        Verdict::refused(1, 2560, 0, Layer::File),
    )
}

fn fullest(heap: Global) -> Result<Vec<u8>, AllocError> {
    let options = (0..OPTIONS).map(|number| Record::Domain(number, VALUES, NO_NAME));
    let mut bytes: Vec<u8> = options.flat_map(Record::bytes).collect(heap)?;
    // Each number goes into a record.
    for i in 0..OPTIONS {
        for j in i + 1..OPTIONS {
            let rows = (0..VALUES).map(|a| Record::Row(i, a, j, u32::MAX));
            bytes.extend(rows.flat_map(Record::bytes))?;
        }
    }
    bytes.extend(iter::repeat_n(INEQUALITY, INEQUALITIES).flat_map(Record::bytes))?;
    for option in 0..OPTIONS {
        let prices = (0..VALUES).map(|value| Record::Price(option, value, u32::MAX));
        bytes.extend(prices.flat_map(Record::bytes))?;
    }
    Ok(bytes)
}
