// The record file of a rule book: reads its records one by one, and checks the file against the rules of the format.
#![tactic(auto)]

mod candidate;
mod checking;
mod examples;
mod fault;
mod layout;
mod numbers;
mod record;
mod tally;

pub use candidate::MOST_INEQUALITIES;
pub use checking::check;
pub use examples::worked_examples;
pub use fault::{Fault, Layer, Rule, UnknownNumber};
pub use layout::{LONGEST_FILE, RECORD_LENGTH};
pub use numbers::{byte_of, bytes_of, word_of};
pub use record::Record;

#[cfg(test)]
mod tests;
