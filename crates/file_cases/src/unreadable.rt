// Why a line of the table cannot be read.
use std::alloc::{AllocError, AllocFailed};
use std::fmt;
use std::num::ParseIntError;

#[derive(Clone, Copy)]
pub enum Unreadable {
    FewerFields,
    FewerWords,
    MoreWords,
    BadNumber,
    BadHex,
    LongName,
    UnknownForm,
    UnknownVerdict,
    Memory,
}

impl From<ParseIntError> for Unreadable {
    fn from(_e: ParseIntError) -> Unreadable {
        Unreadable::BadNumber
    }
}

impl From<AllocError> for Unreadable {
    fn from(_e: AllocError) -> Unreadable {
        Unreadable::Memory
    }
}

impl<T: Drop> From<AllocFailed<T>> for Unreadable {
    fn from(_e: AllocFailed<T>) -> Unreadable {
        Unreadable::Memory
    }
}

impl fmt::Display for Unreadable {
    fn fmt<W: fmt::Write>(&self, f: &mut fmt::Formatter<W>) -> fmt::Result {
        f.write_str(match self {
            Unreadable::FewerFields => "fewer than three fields",
            Unreadable::FewerWords => "a word is missing",
            Unreadable::MoreWords => "a word too many",
            Unreadable::BadNumber => "no number of its size",
            Unreadable::BadHex => "no pairs of hexadecimal digits",
            Unreadable::LongName => "a name of more than twelve bytes",
            Unreadable::UnknownForm => "no such form of record",
            Unreadable::UnknownVerdict => "no such verdict",
            Unreadable::Memory => "no memory",
        })
    }
}
