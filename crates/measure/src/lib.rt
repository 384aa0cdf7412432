// Measures, which weigh configurations: what a measure is, the count and the tariff, and what can be done with any
// measure.
#![tactic(auto)]

mod count;
mod prices;
mod tariff;
mod totals;
mod weighing;
mod weights;

pub use count::Count;
pub use tariff::{Cost, NO_PRICE, Tariff};
pub use totals::total;
pub use weighing::Measure;
pub use weights::{block_weight, configuration_weight};

#[cfg(test)]
mod tests;
