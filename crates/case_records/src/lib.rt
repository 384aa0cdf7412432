// The records of a record file as the test programs write them, by the letter and the fields of each.
#![tactic(auto)]

mod record;
#[cfg(test)]
mod tests;

pub use record::{NAME_LENGTH, NO_NAME, RECORD_LENGTH, Record};
