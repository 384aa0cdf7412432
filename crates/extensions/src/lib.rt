// A book and a measure from outside: each says what it means and shows its law, and works with all that is generic.
#![tactic(auto)]

mod dearest;
mod near_book;

pub use dearest::Dearest;
pub use near_book::NearBook;

#[cfg(test)]
mod tests;
