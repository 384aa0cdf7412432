// What the check says of a file, as the table writes it.
use crate::unreadable::Unreadable;
use crate::words::Words;
use record_file::{Fault, Layer};
use std::fmt;
use std::str::FromStr;

// The rule is a number here, since the table may write one that no rule has.
#[derive(Clone, Copy, PartialEq, Eq)]
pub struct Refusal {
    number: u8,
    record: usize,
    byte: u8,
    layer: Layer,
}

impl From<Fault> for Refusal {
    fn from(fault: Fault) -> Refusal {
        Refusal {
            number: fault.rule.number(),
            record: fault.record,
            byte: fault.byte,
            layer: fault.layer,
        }
    }
}

#[derive(Clone, Copy, PartialEq, Eq)]
pub struct Verdict(Result<(), Refusal>);

impl Verdict {
    pub const ACCEPTED: Verdict = Verdict(Ok(()));

    pub fn refused(number: u8, record: usize, byte: u8, layer: Layer) -> Verdict {
        Verdict(Err(Refusal {
            number,
            record,
            byte,
            layer,
        }))
    }

    pub fn of(bytes: &[u8]) -> Verdict {
        Verdict(record_file::check(bytes).map_err(Refusal::from))
    }
}

impl FromStr for Verdict {
    type Err = Unreadable;

    fn from_str(text: &str) -> Result<Verdict, Unreadable> {
        let mut words = Words::from(text);
        let verdict = match words.word()? {
            "accepted" => Verdict::ACCEPTED,
            "refused" => Verdict::refused(
                words.number()?,
                words.number()?,
                words.number()?,
                layer_of(words.word()?)?,
            ),
            _ => return Err(Unreadable::UnknownVerdict),
        };
        words.end()?;
        Ok(verdict)
    }
}

fn layer_of(word: &str) -> Result<Layer, Unreadable> {
    [Layer::File, Layer::Record, Layer::Book]
        .into_iter()
        .find(|layer| word_of(*layer) == word)
        .ok_or(Unreadable::UnknownVerdict)
}

// A function, and no Display: the layers belong to another crate.
fn word_of(layer: Layer) -> &'static str {
    match layer {
        Layer::File => "file",
        Layer::Record => "record",
        Layer::Book => "book",
    }
}

impl fmt::Display for Verdict {
    fn fmt<W: fmt::Write>(&self, f: &mut fmt::Formatter<W>) -> fmt::Result {
        match self.0 {
            Ok(()) => f.write_str("accepted"),
            Err(refusal) => {
                let Refusal {
                    number,
                    record,
                    byte,
                    layer,
                } = refusal;
                let layer = word_of(layer);
                write!(f, "refused {number} {record} {byte} {layer}")
            }
        }
    }
}
