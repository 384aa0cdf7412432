use crate::Record;

#[test]
fn records_are_written(rt: HostRuntime) {
    let cases = [
        (
            Record::Domain(1, 32, *b"abcdefghijkl"),
            *b"O\x01\x20\0abcdefghijkl",
        ),
        (
            Record::Row(1, 31, 2, 0x8040_2010),
            *b"R\x01\x1f\x02\x10\x20\x40\x80\0\0\0\0\0\0\0\0",
        ),
        (
            Record::Inequality(3, 4, -2, 515, i32::MIN),
            *b"L\x03\0\x04\xfe\xff\x03\x02\0\0\0\x80\0\0\0\0",
        ),
        (
            Record::Price(5, 6, 258),
            *b"P\x05\x06\0\x02\x01\0\0\0\0\0\0\0\0\0\0",
        ),
        (Record::Odd(b'Q', 7), *b"Q\0\0\0\0\0\0\0\0\0\0\0\0\0\0\x07"),
    ];
    for (record, bytes) in cases {
        assert_eq!(rt; record.bytes(), bytes);
    }
}
