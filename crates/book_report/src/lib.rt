// What a rule book comes to, and the printed lines about it: how many values of two options go together, and the
// cheapest value of an option.
#![tactic(auto)]

mod cheapest;
mod lines;
mod pairs;
#[cfg(test)]
mod tests;

pub use cheapest::{Cheapest, cheapest_value};
pub use lines::{cheapest_line, pair_line};
pub use pairs::{pairs_in_all, pairs_together};
