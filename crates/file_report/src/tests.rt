// Names and lines at examples.
use crate::{Counts, counts_line, name_text, option_line};
use std::test::Fail;

#[test]
fn every_byte_is_printable(rt: HostRuntime) -> Result<(), Fail> {
    for byte in 0..=255u8 {
        let text = name_text(rt.alloc(), &[byte, b'x'])?;
        for shown in text.as_bytes() {
            assert!(rt; b' ' <= *shown && *shown <= b'~', "byte {byte}");
        }
    }
    Ok(())
}

#[test]
fn names_are_shown(rt: HostRuntime) -> Result<(), Fail> {
    let table: [(&[u8], &str); 6] = [
        (b"", ""),
        (b"\0\0\0", ""),
        (b"Seat heating", "Seat heating"),
        (b"\0 ~\0\0", "\\x00 ~"),
        (b"a\"b\\c", "a\\\"b\\\\c"),
        (b"\x1b[2J\x7f\xff", "\\x1b[2J\\x7f\\xff"),
    ];
    for (name, text) in table {
        assert_eq!(rt; name_text(rt.alloc(), name)?.as_str(), text);
    }
    Ok(())
}

#[test]
fn lines_are_written(rt: HostRuntime) -> Result<(), Fail> {
    let line = option_line(rt.alloc(), 0, b"X\0", 1)?;
    assert_eq!(rt; line.as_str(), "option 0 \"X\" 1 value");
    let counts = Counts {
        domains: usize::MAX,
        rows: usize::MAX,
        inequalities: 2,
        prices: 0,
    };
    let line = counts_line(rt.alloc(), &counts)?;
    let written =
        "records: 36893488147419103232 in all, 18446744073709551615 of O, 18446744073709551615 of R, 2 of L, 0 of P";
    assert_eq!(rt; line.as_str(), written);
    Ok(())
}
