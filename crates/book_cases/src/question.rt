// What is asked.
use std::fmt;

// A value of an option.
#[derive(Clone, Copy, PartialEq, Eq)]
pub struct Choice {
    pub option: usize,
    pub value: u8,
}

impl fmt::Display for Choice {
    fn fmt<W: fmt::Write>(&self, f: &mut fmt::Formatter<W>) -> fmt::Result {
        let Choice { option, value } = *self;
        write!(f, "({option}, {value})")
    }
}

#[derive(Clone, Copy)]
pub enum Question {
    Options,
    Values(usize),
    Row(Choice, usize),
    Bar(Choice),
    Price(Choice),
    Ways(Choice),
}

impl fmt::Display for Question {
    fn fmt<W: fmt::Write>(&self, f: &mut fmt::Formatter<W>) -> fmt::Result {
        match *self {
            Question::Options => f.write_str("number of options"),
            Question::Values(option) => write!(f, "set of option {option}"),
            Question::Row(choice, other) => {
                let Choice { option, value } = choice;
                write!(f, "row of ({option}, {value}, {other})")
            }
            Question::Bar(choice) => write!(f, "bar of {choice}"),
            Question::Price(choice) => write!(f, "price of {choice}"),
            Question::Ways(choice) => write!(f, "ways of {choice}"),
        }
    }
}
