// Where a record's bytes stand in its file.
ghost use Rattle.std.specs.Prelude.{◌≡◌, ◌+◌, ◌<◌, ◌≤◌};
ghost use Rattle.record_file.specs.Layout.{byte, word, part, whole_records, record_length};

use crate::numbers::word_of;

pub const RECORD_LENGTH: usize = 16;

pub const LONGEST_FILE: usize = 40_960;

// A record of a file, by its number.
#[derive(Clone, Copy)]
pub(crate) struct RawRecord<'a> {
    pub(crate) file: &'a [u8],
    pub(crate) number: usize,
    ghost there: { number < whole_records file.now },
}

impl<'a> RawRecord<'a> {
    pub(crate) fn byte(&self, at: usize) -> u8
        requires { at < record_length }
        ensures { result ≡ byte self.now.file.now self.now.number at }
    {
        self.file[RECORD_LENGTH * self.number + at]
    }

    // The letter that tells the record's kind.
    pub(crate) fn letter(&self) -> char
        ensures { result ≡ byte self.now.file.now self.now.number 0 }
    {
        char::from(self.byte(0))
    }

    // `length` bytes of the record, from byte `from` on.
    pub(crate) fn part(&self, from: usize, length: usize) -> &'a [u8]
        requires { from + length ≤ record_length }
        ensures { result.now ≡ part self.now.file.now self.now.number from length }
    {
        let start = RECORD_LENGTH * self.number + from;
        &self.file[start..start + length]
    }

    // The number in the four bytes from byte `at` on, the lowest first.
    pub(crate) fn word(&self, at: usize) -> u32
        requires { at + 4 ≤ record_length }
        ensures { result ≡ word self.now.file.now self.now.number at }
    {
        word_of(self.part(at, 4))
    }
}
