// Prices of tariffs.
use crate::asked::EVERY;
use crate::group::Group;
use crate::question::{Choice, Question};
use crate::reading::LAST_VALUE;
use crate::refused::REFUSED;
use crate::sample::{Comparison, Sample, Samples};
use crate::session::Session;
use case_records::{NO_NAME, RECORD_LENGTH, Record};
use measure::{Measure, NO_PRICE, Tariff};
use std::alloc::{AllocError, Global};
use std::io;
use value_set::OPTIONS;

const MOST_OPTIONS: u8 = 12;

const SAMPLES: Samples = Samples {
    before: &[],
    each: &[
        Sample {
            name: "no price",
            records: &[Record::Domain(0, 2, NO_NAME)],
        },
        Sample {
            name: "the least and the greatest price",
            records: &[
                Record::Domain(0, 4, NO_NAME),
                Record::Price(0, 0, 0),
                Record::Price(0, 1, u32::MAX),
                Record::Price(0, 3, 1),
            ],
        },
        Sample {
            name: "a price in each byte",
            records: &[
                Record::Domain(0, 5, NO_NAME),
                Record::Domain(1, 5, NO_NAME),
                Record::Price(0, 0, 1),
                Record::Price(1, 4, 1 << 8),
                Record::Price(1, 0, 1 << 16),
                Record::Price(0, 4, 1 << 24),
                Record::Price(0, 1, 1 << 31),
            ],
        },
        Sample {
            name: "prices among other records",
            records: &[
                Record::Domain(0, 32, NO_NAME),
                Record::Domain(1, 3, NO_NAME),
                Record::Row(0, 1, 1, 2),
                Record::Price(1, 1, 20),
                Record::Inequality(0, 1, 2, 3, 4),
                Record::Price(0, 31, 300),
                Record::Price(0, 1, 4000),
                Record::Price(1, 0, 50_000),
            ],
        },
    ],
};

pub fn run(session: &mut Session) -> io::Result<()> {
    session.run("tariffs of files typed by hand", |group| {
        SAMPLES.compare(group, &AcceptedPrices)
    })?;
    session.run("tariffs of refused files", |group| {
        REFUSED.compare(group, &RefusedPrices)
    })?;
    let file = full_file(session.heap())?;
    session.run("tariff with a price for every value", |group| {
        AcceptedPrices.compare(group, file.as_slice());
        Ok(())
    })
}

#[derive(Clone, Copy)]
struct AcceptedPrices;

impl Comparison for AcceptedPrices {
    fn compare(&self, group: &mut Group, file: &[u8]) {
        compare_prices(group, file, file);
    }
}

#[derive(Clone, Copy)]
struct RefusedPrices;

impl Comparison for RefusedPrices {
    // Of a refused file no record counts.
    fn compare(&self, group: &mut Group, file: &[u8]) {
        compare_prices(group, file, &[]);
    }
}

fn compare_prices(group: &mut Group, file: &[u8], counting: &[u8]) {
    let tariff = Tariff::new(file);
    for &option in EVERY.options {
        for &value in EVERY.values {
            let choice = Choice { option, value };
            let cost = tariff.weight(option, value);
            match price_of(counting, choice) {
                Some(price) => {
                    group.compare(Question::Price(choice), cost.price, u64::from(price));
                    group.compare(Question::Ways(choice), cost.ways, 1);
                }
                None => group.compare(Question::Price(choice), cost.price, NO_PRICE),
            }
        }
    }
}

// The price that the records give a value, none beyond the limits.
fn price_of(file: &[u8], choice: Choice) -> Option<u32> {
    if choice.option >= OPTIONS || choice.value > LAST_VALUE {
        return None;
    }
    let price = file
        .chunks(RECORD_LENGTH)
        .find_map(|record| price_in(record, choice));
    Some(price.unwrap_or(0))
}

fn price_in(record: &[u8], choice: Choice) -> Option<u32> {
    match record {
        &[b'P', i, v, _, p0, p1, p2, p3, ..]
            if usize::from(i) == choice.option && v == choice.value => {
            Some(u32::from_le_bytes([p0, p1, p2, p3]))
        }
        _ => None,
    }
}

fn full_file(heap: Global) -> Result<Vec<u8>, AllocError> {
    let domains = (0..MOST_OPTIONS).map(|option| Record::Domain(option, LAST_VALUE + 1, NO_NAME));
    let mut file: Vec<u8> = domains.flat_map(Record::bytes).collect(heap)?;
    // The number goes into each record.
    for option in 0..MOST_OPTIONS {
        let prices = (0..=LAST_VALUE).map(|value| {
            let price = u32::from_le_bytes([value, option, 0, value]);
            Record::Price(option, value, price)
        });
        file.extend(prices.flat_map(Record::bytes))?;
    }
    Ok(file)
}
