// A line of the table: LABEL | EXPECTED | RECORDS, with '; ' between records.
ghost use Rattle.std.specs.Prelude.{◌<◌, IfOk};

use crate::unreadable::Unreadable;
use crate::verdicts::Verdict;
use crate::words::Words;
use case_records::{NAME_LENGTH, NO_NAME, Record};
use std::alloc::Global;
use std::iter;

#[derive(Drop)]
pub struct Case<'a> {
    pub label: &'a str,
    pub expected: Verdict,
    pub bytes: Vec<u8>,
}

impl<'a> Case<'a> {
    // A function, and no FromStr, which is not given the memory for the bytes.
    pub fn read(heap: Global, line: &'a str) -> Result<Case<'a>, Unreadable> {
        let (label, rest) = line.split_once(" | ").ok_or(Unreadable::FewerFields)?;
        let (expected, records) = rest.split_once(" | ").ok_or(Unreadable::FewerFields)?;
        let expected = expected.parse::<Verdict>()?;
        let mut bytes = Vec::new(heap);
        for text in records.split("; ") {
            append_item(heap, &mut bytes, text)?;
        }
        Ok(Case {
            label,
            expected,
            bytes,
        })
    }
}

fn append_item(heap: Global, bytes: &mut Vec<u8>, text: &str) -> Result<(), Unreadable> {
    let Some(rest) = text.strip_prefix("repeat ") else {
        return append_form(bytes, text);
    };
    let (times, form) = rest.split_once(" ").ok_or(Unreadable::FewerWords)?;
    let times = times.parse::<u32>()?;
    let mut once = Vec::new(heap);
    append_form(&mut once, form)?;
    for _ in 0..times {
        bytes.extend_from_slice(once.as_slice())?;
    }
    Ok(())
}

// The words are matched here, since each form reads the rest of the line in a way of its own.
fn append_form(bytes: &mut Vec<u8>, text: &str) -> Result<(), Unreadable> {
    let mut words = Words::from(text);
    match words.word()? {
        "bytes" => append_hex(bytes, words),
        "zeros" => append_zeros(bytes, words),
        "options" => append_options(bytes, words),
        letter => append_record(bytes, letter, words),
    }
}

fn append_hex(bytes: &mut Vec<u8>, words: Words) -> Result<(), Unreadable> {
    for word in words.rest() {
        for pair in word.as_bytes().chunks(2) {
            bytes.push(hex_byte(pair)?)?;
        }
    }
    Ok(())
}

fn hex_byte(pair: &[u8]) -> Result<u8, Unreadable> {
    let &[high, low] = pair else {
        return Err(Unreadable::BadHex);
    };
    Ok(hex_digit(high)? * 16 + hex_digit(low)?)
}

// By hand, since from_str_radix takes capital letters and signs too.
fn hex_digit(digit: u8) -> Result<u8, Unreadable>
    ensures { IfOk result (λ value. value < 16) }
{
    match digit {
        b'0'..=b'9' => Ok(digit - b'0'),
        b'a'..=b'f' => Ok(digit - b'a' + 10),
        _ => Err(Unreadable::BadHex),
    }
}

fn append_zeros(bytes: &mut Vec<u8>, mut words: Words) -> Result<(), Unreadable> {
    let count: u32 = words.number()?;
    words.end()?;
    bytes.extend(iter::repeat_n(0, count as usize))?;
    Ok(())
}

fn append_options(bytes: &mut Vec<u8>, mut words: Words) -> Result<(), Unreadable> {
    let options: u8 = words.number()?;
    let count = words.number()?;
    words.end()?;
    let records = (0..options).map(|number| Record::Domain(number, count, NO_NAME));
    bytes.extend(records.flat_map(Record::bytes))?;
    Ok(())
}

fn append_record(bytes: &mut Vec<u8>, letter: &str, mut words: Words) -> Result<(), Unreadable> {
    let record = match letter {
        "O" => Record::Domain(words.number()?, words.number()?, name_of(words.word()?)?),
        "R" => Record::Row(
            words.number()?,
            words.number()?,
            words.number()?,
            words.number()?,
        ),
        "L" => Record::Inequality(
            words.number()?,
            words.number()?,
            words.number()?,
            words.number()?,
            words.number()?,
        ),
        "P" => Record::Price(words.number()?, words.number()?, words.number()?),
        _ => return Err(Unreadable::UnknownForm),
    };
    words.end()?;
    bytes.extend_from_slice(&record.bytes())?;
    Ok(())
}

fn name_of(word: &str) -> Result<[u8; NAME_LENGTH], Unreadable> {
    let mut name = NO_NAME;
    if word != "-" {
        let start = name.get_mut(..word.len()).ok_or(Unreadable::LongName)?;
        start.copy_from_slice(word.as_bytes());
    }
    Ok(name)
}
