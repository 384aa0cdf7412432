// The sets that everything else is built on: a set of the values of one option, an iterator through such a set, and a
// block, which is a cross product of one set for each option. What an option or a value stands for is not known here.
#![tactic(auto)]

mod block;
mod places;
mod set;
mod values;

pub use block::{Block, OPTIONS};
pub use places::{PLACES, place_of};
pub use set::{VALUES, ValueSet};
pub use values::Values;

#[cfg(test)]
mod tests;
