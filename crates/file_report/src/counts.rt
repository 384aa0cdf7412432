// How many records of each kind a file has.
ghost use Rattle.record_file.specs.Layout.{whole_records};
ghost use Rattle.file_report.specs.Tallies.{CountsBefore};

use record_file::{RECORD_LENGTH, Record};

#[derive(Clone, Copy, PartialEq, Eq, Default, Debug)]
pub struct Counts {
    pub domains: usize,
    pub rows: usize,
    pub inequalities: usize,
    pub prices: usize,
}

pub fn count_records(file: &[u8]) -> Counts
    ensures { CountsBefore file.now (whole_records file.now) result }
{
    let mut counts = Counts::default();
    // Records are read by their numbers.
    for number in 0..file.len() / RECORD_LENGTH {
        match Record::read(file, number) {
            Some(Record::Domain { .. }) => counts.domains += 1,
            Some(Record::Row { .. }) => counts.rows += 1,
            Some(Record::Inequality { .. }) => counts.inequalities += 1,
            Some(Record::Price { .. }) => counts.prices += 1,
            None => {}
        }
    }
    counts
}
