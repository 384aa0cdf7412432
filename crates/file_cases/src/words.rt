// The words of a text, one after the other.
use crate::unreadable::Unreadable;
use std::num::ParseIntError;
use std::str::{FromStr, SplitWhitespace};

#[derive(Drop)]
pub struct Words<'a>(SplitWhitespace<'a>);

impl<'a> From<&'a str> for Words<'a> {
    fn from(text: &'a str) -> Words<'a> {
        Words(text.split_whitespace())
    }
}

impl<'a> Words<'a> {
    pub fn word(&mut self) -> Result<&'a str, Unreadable> {
        self.0.next().ok_or(Unreadable::FewerWords)
    }

    pub fn number<N: FromStr<Err = ParseIntError>>(&mut self) -> Result<N, Unreadable> {
        Ok(self.word()?.parse::<N>()?)
    }

    pub fn rest(self) -> SplitWhitespace<'a> {
        self.0
    }

    // To be called once all that is expected was read.
    pub fn end(mut self) -> Result<(), Unreadable> {
        match self.0.next() {
            Some(_) => Err(Unreadable::MoreWords),
            None => Ok(()),
        }
    }
}
