// What can be wrong with a record file: the rules by name and number, and a fault with the place where it lies.
ghost use Rattle.std.specs.Prelude.{◌≡◌, Some, MatchOption, ◌≢◌};
ghost use Rattle.record_file.specs.Faults.{number_of, layer_of, fault_at};
ghost use Rattle.record_file.specs.Numbers.{Numbered, unknown_number_text};

use std::error::Error;
use std::fmt;

// A rule of the record file. A file that breaks it is refused under the rule's number.
#[derive(Clone, Copy, PartialEq, Eq, Debug)]
pub enum Rule {
    TooLong = 1,
    PartialRecord = 2,
    NoRecord = 3,
    UnknownLetter = 4,
    MisplacedOption = 5,
    ValueCount = 6,
    UnknownReference = 7,
    MaskBeyondValues = 8,
    ReservedByte = 9,
    Duplicate = 10,
    TooManyInequalities = 11,
}

// What a rule is about: the file as a whole, one record, or the book that the records make together.
#[derive(Clone, Copy, PartialEq, Eq, Debug)]
pub enum Layer {
    File,
    Record,
    Book,
}

// A broken rule, and the record and byte that break it.
#[derive(Clone, Copy, PartialEq, Eq, Debug)]
pub struct Fault {
    pub rule: Rule,
    pub record: usize,
    pub byte: u8,
    pub layer: Layer,
}

// A number that no rule has.
#[derive(Clone, Copy, PartialEq, Eq, Debug)]
pub struct UnknownNumber(pub u8);

impl TryFrom<u8> for Rule {
    type Error = UnknownNumber;

    ghost try_from_gives = { Numbered };

    fn try_from(number: u8) -> Result<Rule, UnknownNumber> {
        match number {
            1 => Ok(Rule::TooLong),
            2 => Ok(Rule::PartialRecord),
            3 => Ok(Rule::NoRecord),
            4 => Ok(Rule::UnknownLetter),
            5 => Ok(Rule::MisplacedOption),
            6 => Ok(Rule::ValueCount),
            7 => Ok(Rule::UnknownReference),
            8 => Ok(Rule::MaskBeyondValues),
            9 => Ok(Rule::ReservedByte),
            10 => Ok(Rule::Duplicate),
            11 => Ok(Rule::TooManyInequalities),
            _ => Err(UnknownNumber(number)),
        }
    }
}

impl fmt::Display for UnknownNumber {
    ghost output = { λ e. Some (unknown_number_text e.0) };

    fn fmt<W: fmt::Write>(&self, f: &mut fmt::Formatter<W>) -> fmt::Result {
        write!(f, "no rule has the number {}", self.0)
    }
}

impl Error for UnknownNumber {}

impl Rule {
    // The rule with a number, if there is one.
    pub fn from_number(number: u8) -> Option<Rule>
        ensures { MatchOption result ((rule : Rule) → number_of rule ≢ number) (λ rule. number_of rule ≡ number) }
    {
        Rule::try_from(number).ok()
    }

    // By name, since a refusal is told under its number.
    pub fn number(self) -> u8
        ensures { result ≡ number_of self }
    {
        self as u8
    }

    pub fn layer(self) -> Layer
        ensures { result ≡ layer_of self }
    {
        match self {
            Rule::TooLong | Rule::PartialRecord | Rule::NoRecord => Layer::File,
            Rule::Duplicate | Rule::TooManyInequalities => Layer::Book,
            _ => Layer::Record,
        }
    }
}

impl Fault {
    // A fault of a rule, with the rule's layer.
    pub(crate) fn new(rule: Rule, record: usize, byte: u8) -> Fault
        ensures { result ≡ fault_at rule «record» byte }
    {
        Fault {
            rule,
            record,
            byte,
            layer: rule.layer(),
        }
    }
}
