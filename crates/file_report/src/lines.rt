// The lines that are printed about a file.
ghost use Rattle.std.specs.Prelude.{◌≡◌, IfOk, Some, string_bytes};
ghost use Rattle.file_report.specs.Lines.{noun_of, option_text, counts_text, refusal_text};

use crate::counts::Counts;
use crate::names::name_text;
use record_file::Fault;
use std::alloc::{AllocError, Global};
use std::fmt;

// A word within one line, chosen by a number: no type stands behind it that could be a `Display`.
fn noun(count: u8) -> &'static str
    ensures { result.now ≡ noun_of count }
{
    if count == 1 { "value" } else { "values" }
}

// The parameters are what stands in the line, and the memory for it.
pub fn option_line(heap: Global, option: u8, name: &[u8], count: u8) -> Result<String, AllocError>
    ensures { IfOk result (λ s. string_bytes s ≡ option_text option name.now count) }
{
    let name = name_text(heap, name)?;
    let values = noun(count);
    format!(in heap; "option {option} \"{name}\" {count} {values}")
}

impl fmt::Display for Counts {
    ghost output = { λ counts. Some (counts_text counts) };

    fn fmt<W: fmt::Write>(&self, f: &mut fmt::Formatter<W>) -> fmt::Result {
        let Counts {
            domains,
            rows,
            inequalities,
            prices,
        } = *self;
        // Four counts add up to more than a usize may hold.
        let all = domains as u128 + rows as u128 + inequalities as u128 + prices as u128;
        write!(
            f,
            "records: {all} in all, {domains} of O, {rows} of R, {inequalities} of L, {prices} of P"
        )
    }
}

pub fn counts_line(heap: Global, counts: &Counts) -> Result<String, AllocError>
    ensures { IfOk result (λ s. string_bytes s ≡ counts_text counts.now) }
{
    counts.to_string(heap)
}

// `Fault` is a type of another crate, so its line is formatted here and is no `Display` of it.
pub fn refusal_line(heap: Global, fault: &Fault) -> Result<String, AllocError>
    ensures { IfOk result (λ s. string_bytes s ≡ refusal_text fault.now) }
{
    let number = fault.rule.number();
    let record = fault.record;
    let byte = fault.byte;
    format!(in heap; "refused {number} {record} {byte}")
}
