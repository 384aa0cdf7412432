// The printed lines about a record file: its options, its counts, and why it is refused.
#![tactic(auto)]

mod counts;
mod explanations;
mod lines;
mod names;
#[cfg(test)]
mod tests;

pub use counts::{Counts, count_records};
pub use explanations::explanation;
pub use lines::{counts_line, option_line, refusal_line};
pub use names::name_text;
