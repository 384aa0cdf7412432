use crate::{Record, Rule, UnknownNumber, byte_of, bytes_of, check, word_of};

const FILE: &[u8; 32] = b"O\0\x04\0Seat\0\0\0\0\0\0\0\0P\0\x03\0\x02\x01\0\0\0\0\0\0\0\0\0\0";

#[test]
fn rules_by_number(rt: HostRuntime) {
    for number in 0..=255u8 {
        let named = Rule::from_number(number);
        let there = number >= 1 && number <= 11;
        assert_eq!(rt; named.is_some(), there, "number {number}");
        if let Some(rule) = named {
            assert_eq!(rt; rule.number(), number);
        }
    }
    assert_eq!(rt; Rule::try_from(10u8), Ok(Rule::Duplicate));
    assert_eq!(rt; Rule::try_from(12u8), Err(UnknownNumber(12)));
}

#[test]
fn records_are_read(rt: HostRuntime) {
    assert!(rt; check(FILE).is_ok());
    let Some(
        Record::Price {
            option,
            value,
            price,
        },
    ) = Record::read(FILE, 1)
    else {
        panic!(rt; "no price");
    };
    assert_eq!(rt; option, 0);
    assert_eq!(rt; value, 3);
    assert_eq!(rt; word_of(price), 258);
    assert_eq!(rt; byte_of(price, 4), 0);
    assert!(rt; Record::read(FILE, 2).is_none());
}

#[test]
fn numbers_of_parts(rt: HostRuntime) {
    let part = [1, 2, 3, 4, 5];
    assert_eq!(rt; byte_of(&part, 4), 5);
    assert_eq!(rt; byte_of(&part, 5), 0);
    assert_eq!(rt; byte_of(&part, usize::MAX), 0);
    assert_eq!(rt; bytes_of(&part, 0), [1, 2]);
    assert_eq!(rt; bytes_of(&part, 3), [4, 5, 0, 0]);
    assert_eq!(rt; bytes_of(&part, usize::MAX), [0; 4]);
    assert_eq!(rt; word_of(&part), 0x0403_0201);
    assert_eq!(rt; word_of(&part[..2]), 0x0201);
}
