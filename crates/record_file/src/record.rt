// A record as its reader is given it: one of four kinds, with the bytes of its own as parts of the file.
ghost use Rattle.std.specs.Prelude.{◌≡◌, ◌<◌, true, is_some};
ghost use Rattle.record_file.specs.Faults.{Sound};
ghost use Rattle.record_file.specs.Layout.{whole_records};
ghost use Rattle.record_file.specs.Reading.{Reads};

use crate::layout::{RECORD_LENGTH, RawRecord};

// A record of a rule book. Numbers that take several bytes are parts of the file, the lowest byte first.
#[derive(Clone, Copy, Debug)]
pub enum Record<'a> {
    // An option, its number of values, and its name for the screens.
    Domain {
        option: u8,
        count: u8,
        name: &'a [u8],
    },
    // The values of `other` that go with `value` of `option`, as a mask.
    Row {
        option: u8,
        value: u8,
        other: u8,
        mask: &'a [u8],
    },
    // The coefficients p, q and c of a rule p·x + q·y ≥ c on the values x of `option` and y of `other`.
    Inequality {
        option: u8,
        other: u8,
        coefficients: &'a [u8],
    },
    // The price of a value of an option.
    Price {
        option: u8,
        value: u8,
        price: &'a [u8],
    },
}

impl<'a> Record<'a> {
    // Record `number` of a file: none where the file has no such record, or its letter is unknown.
    pub fn read(file: &'a [u8], number: usize) -> Option<Record<'a>>
        ensures reads { Reads file.now number result }
        ensures accepted { Sound file.now → number < whole_records file.now → is_some result ≡ true }
    {
        if number >= file.len() / RECORD_LENGTH {
            return None;
        }
        let record = RawRecord { file, number };
        let option = record.byte(1);
        // Kinds are told by a `match` on the letter, as the format tells them.
        match record.letter() {
            'O' => Some(Record::Domain {
                option,
                count: record.byte(2),
                name: record.part(4, 12),
            }),
            'R' => Some(Record::Row {
                option,
                value: record.byte(2),
                other: record.byte(3),
                mask: record.part(4, 4),
            }),
            'L' => Some(Record::Inequality {
                option,
                other: record.byte(3),
                coefficients: record.part(4, 8),
            }),
            'P' => Some(Record::Price {
                option,
                value: record.byte(2),
                price: record.part(4, 4),
            }),
            _ => None,
        }
    }
}
