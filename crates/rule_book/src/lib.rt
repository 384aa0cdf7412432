// Rule books: what each answers, and the books that stand over other books.
#![tactic(auto)]

mod barred;
mod book;
mod joint;

pub use barred::{BarRefusal, Barred};
pub use book::Book;
pub use joint::Joint;
