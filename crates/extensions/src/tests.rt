use crate::dearest::Dearest;
use crate::near_book::NearBook;
use file_books::TableBook;
use measure::{Measure, Tariff, block_weight, configuration_weight, total};
use rule_book::{Barred, Book, Joint};
use value_set::{Block, ValueSet};

// Two options of four values. Value 1 of option 0 goes with 0 and 2 of option 1; it costs 5, and value 2 of option 1
// costs 258.
const FILE: &[u8; 80] = b"O\x00\x04\0\0\0\0\0\0\0\0\0\0\0\0\0\
    O\x01\x04\0\0\0\0\0\0\0\0\0\0\0\0\0\
    R\x00\x01\x01\x05\0\0\0\0\0\0\0\0\0\0\0\
    P\x00\x01\0\x05\0\0\0\0\0\0\0\0\0\0\0\
    P\x01\x02\0\x02\x01\0\0\0\0\0\0\0\0\0\0";

#[test]
fn clamped(rt: HostRuntime) {
    assert_eq!(rt; NearBook::new(0, 4).options(), 1);
    assert_eq!(rt; NearBook::new(12, 4).options(), 12);
    assert_eq!(rt; NearBook::new(usize::MAX, 4).options(), 12);
    assert_eq!(rt; NearBook::new(2, 0).values(0).mask(), 0);
    assert_eq!(rt; NearBook::new(2, 4).values(1).mask(), 0b1111);
    assert_eq!(rt; NearBook::new(2, 4).values(2).mask(), 0);
    assert_eq!(rt; NearBook::new(2, 255).values(1).mask(), u32::MAX);
}

#[test]
fn rows_of_near_values(rt: HostRuntime) {
    let book = NearBook::new(3, 5);
    assert_eq!(rt; book.row(0, 0, 1).mask(), 0b11);
    assert_eq!(rt; book.row(0, 2, 1).mask(), 0b1110);
    assert_eq!(rt; book.row(2, 4, 0).mask(), 0b11000);
    assert_eq!(rt; book.row(0, 5, 1).mask(), 0);
    assert_eq!(rt; book.row(1, 2, 1).mask(), 0);
    assert_eq!(rt; book.row(0, 2, 3).mask(), 0);
    assert_eq!(rt; NearBook::new(2, 255).row(0, 31, 1).mask(), 0xc000_0000);
    assert_eq!(rt; NearBook::new(2, 255).row(0, 255, 1).mask(), 0);
}

#[test]
fn joined(rt: HostRuntime) {
    let near = NearBook::new(3, 5);
    let table = TableBook::new(FILE);
    let twice = Joint::new(near, near);
    assert_eq!(rt; twice.row(0, 2, 1).mask(), near.row(0, 2, 1).mask());
    let book = Joint::new(near, table);
    assert_eq!(rt; book.options(), 2);
    assert_eq!(rt; book.values(0).mask(), 0b1111);
    assert_eq!(rt; book.row(0, 1, 1).mask(), 0b101);
    assert_eq!(rt; book.row(0, 2, 1).mask(), 0b1110);
    assert_eq!(rt; book.row(1, 1, 0).mask(), 0b101);
}

#[test]
fn barred(rt: HostRuntime) {
    let mut book = Barred::new(NearBook::new(3, 5));
    assert!(rt; book.bar(1, 2).is_ok());
    assert_eq!(rt; book.values(1).mask(), 0b11011);
    assert_eq!(rt; book.row(0, 2, 1).mask(), 0b1010);
    assert_eq!(rt; book.row(1, 2, 0).mask(), 0);
    assert!(rt; book.bar(1, 2).is_err());
    assert!(rt; book.bar(1, 5).is_err());
    assert!(rt; book.bar(3, 0).is_err());
}

#[test]
fn dearest_of_several(rt: HostRuntime) {
    let dearest = Dearest::new(Tariff::new(FILE));
    assert!(rt; total(&dearest, &[Some(3), None, Some(9), Some(0)]) == Some(9));
    assert!(rt; total(&dearest, &[None, None]).is_none());
    assert!(rt; total(&dearest, &[]).is_none());
    assert!(rt; dearest.sum(None, Some(0)) == Some(0));
    assert!(rt; dearest.product(Some(3), Some(4)) == Some(7));
    assert!(rt; dearest.product(Some(u64::MAX), Some(4)) == Some(u64::MAX));
    assert!(rt; dearest.product(Some(3), None).is_none());
    assert!(rt; dearest.weight(1, 2) == Some(258));
    assert!(rt; dearest.weight(11, 31) == Some(0));
    assert!(rt; dearest.weight(12, 0).is_none());
    assert!(rt; dearest.weight(0, 32).is_none());
}

#[test]
fn dearest_of_a_block(rt: HostRuntime) {
    let block = Block::EMPTY
        .with_side(0, ValueSet::first(2))
        .with_side(1, ValueSet::first(3).without(0));
    let dearest = Dearest::new(Tariff::new(FILE));
    let weights = [
        configuration_weight(&dearest, &[0, 1]),
        configuration_weight(&dearest, &[0, 2]),
        configuration_weight(&dearest, &[1, 1]),
        configuration_weight(&dearest, &[1, 2]),
    ];
    assert!(rt; weights == [Some(0), Some(258), Some(5), Some(263)]);
    assert!(rt; block_weight(&dearest, &block, 2) == total(&dearest, &weights));
    assert!(rt; block_weight(&dearest, &block, 2) == Some(263));
    assert!(rt; block_weight(&dearest, &block, 3).is_none());
}
