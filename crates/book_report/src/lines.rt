// The lines that are printed about a book.
ghost use Rattle.std.specs.Prelude.{◌≡◌, IfOk, Some, string_bytes};
ghost use Rattle.book_report.specs.Lines.{pair_text, value_text, cheapest_text};

use crate::cheapest::Cheapest;
use std::alloc::{AllocError, Global};
use std::fmt;

// One `format!`. The parameters are what stands in the line, and the memory for it.
pub fn pair_line(
    heap: Global,
    option: usize,
    other: usize,
    together: u32,
    in_all: u32,
) -> Result<String, AllocError>
    ensures { IfOk result (λ s. string_bytes s ≡ pair_text option other together in_all) }
{
    format!(in heap; "pair {option} {other}: {together} of {in_all}")
}

impl fmt::Display for Cheapest {
    ghost output = { λ c. Some (value_text c.value c.price) };

    fn fmt<W: fmt::Write>(&self, f: &mut fmt::Formatter<W>) -> fmt::Result {
        let Cheapest { value, price } = *self;
        write!(f, "value {value} at {price}")
    }
}

pub fn cheapest_line(
    heap: Global,
    option: usize,
    cheapest: Option<Cheapest>,
) -> Result<String, AllocError>
    ensures { IfOk result (λ s. string_bytes s ≡ cheapest_text option cheapest) }
{
    match cheapest {
        Some(cheapest) => format!(in heap; "cheapest of option {option}: {cheapest}"),
        None => format!(in heap; "cheapest of option {option}: none"),
    }
}
