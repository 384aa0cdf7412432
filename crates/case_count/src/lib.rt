// How many cases there were, and how many of them went wrong.
#![tactic(auto)]

mod count;
#[cfg(test)]
mod tests;

pub use count::Count;
