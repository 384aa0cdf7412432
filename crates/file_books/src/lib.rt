// The rule books that are made from the bytes of a record file.
#![tactic(auto)]

mod conflicts;
mod domains;
mod file_book;
mod inequalities;
mod relation;

pub use conflicts::Conflicts;
pub use file_book::FileBook;
pub use inequalities::Inequalities;
pub use relation::Relation;

/// The book whose rows are those of a file's R records.
pub type TableBook = FileBook<Conflicts>;

/// The book whose rules are the inequalities of a file's L records.
pub type InequalityBook = FileBook<Inequalities>;
