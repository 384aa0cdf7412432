// The questions that are asked of a book.
use crate::group::Group;
use crate::question::{Choice, Question};
use crate::reading::{Reading, row_of, set_of};
use rule_book::Book;

// Every option that is asked about goes with every value and every option.
#[derive(Clone, Copy)]
pub struct Asked<'a> {
    pub options: &'a [usize],
    pub values: &'a [u8],
}

// Every option and value within the limits, and some beyond.
pub const EVERY: Asked<'static> = Asked {
    options: &[
        0,
        1,
        2,
        3,
        4,
        5,
        6,
        7,
        8,
        9,
        10,
        11,
        12,
        13,
        32,
        255,
        256,
        1 << 32,
        usize::MAX,
    ],
    values: &[
        0, 1, 2, 3, 4, 5, 6, 7, 8, 9, 10, 11, 12, 13, 14, 15, 16, 17, 18, 19, 20, 21, 22, 23, 24,
        25, 26, 27, 28, 29, 30, 31, 32, 33, 64, 128, 255,
    ],
};

impl<'a> Asked<'a> {
    pub fn compare<B: Book, R: Reading>(self, group: &mut Group, book: &B, reading: &R) {
        let options = book.options() as u64;
        group.compare(Question::Options, options, reading.options() as u64);
        for &option in self.options {
            let set = u64::from(book.values(option).mask());
            let expected = u64::from(set_of(reading, option).mask());
            group.compare(Question::Values(option), set, expected);
            self.compare_rows(group, book, reading, option);
        }
    }

    fn compare_rows<B: Book, R: Reading>(
        self,
        group: &mut Group,
        book: &B,
        reading: &R,
        option: usize,
    ) {
        for &value in self.values {
            let choice = Choice { option, value };
            for &other in self.options {
                let row = u64::from(book.row(option, value, other).mask());
                let expected = u64::from(row_of(reading, choice, other).mask());
                group.compare(Question::Row(choice, other), row, expected);
            }
        }
    }
}
