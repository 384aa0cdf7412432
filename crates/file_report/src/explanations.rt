// What each fault of a file means, in plain words.
ghost use Rattle.std.specs.Prelude.{◌≡◌};
ghost use Rattle.file_report.specs.Explanations.{unknown_at, explained};

use record_file::{Fault, Rule};

// What a record names and no O record before it gives, by the byte that names it.
fn unknown_reference(byte: u8) -> &'static str
    ensures { result.now ≡ unknown_at byte }
{
    match byte {
        1 => "The option at byte 1 is given by no O record before it.",
        2 => "The value at byte 2 is not a value of the option at byte 1.",
        3 =>
            "The option at byte 3 is given by no O record before it, or is not above that at byte 1.",
        _ => "The record names an option or a value that no O record before it gives.",
    }
}

// Each sentence stands in the program as it is, so a caller needs no formatter and no memory to get it.
pub fn explanation(fault: &Fault) -> &'static str
    ensures { result.now ≡ explained fault.now.rule fault.now.byte }
{
    let Fault { rule, byte, .. } = *fault;
    match rule {
        Rule::TooLong => "The file is longer than 40,960 bytes.",
        Rule::PartialRecord =>
            "The file ends in the middle of a record: its length is not a multiple of 16.",
        Rule::NoRecord => "The file has no record.",
        Rule::UnknownLetter => "The record's letter is none of O, R, L and P.",
        Rule::MisplacedOption => {
            "The O record follows another kind, or its number is not the next one, or there are twelve options already."
        }
        Rule::ValueCount => "The O record gives its option no value, or more than 32.",
        Rule::UnknownReference => unknown_reference(byte),
        Rule::MaskBeyondValues => "The mask at byte 4 has a value that the option at byte 3 lacks.",
        Rule::ReservedByte => "A byte of the record that must be zero is not.",
        Rule::Duplicate =>
            "It is a second R record for the same two options and value, or a second P record for the same value.",
        Rule::TooManyInequalities =>
            "It is the seventeenth L record, and a file may have sixteen at most.",
    }
}
