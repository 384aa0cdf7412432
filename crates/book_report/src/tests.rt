// Pairs, cheapest values and lines at examples.
use crate::{Cheapest, cheapest_line, cheapest_value, pair_line, pairs_in_all, pairs_together};
use file_books::TableBook;
use measure::Tariff;
use std::test::Fail;

// Options of 3 and of 2 values. Value 1 of the first goes with value 0 of the second alone. Values 0, 1 and 2 of the
// first cost 7, 5 and 5.
const FILE: &[u8] = b"O\0\x03\0A\0\0\0\0\0\0\0\0\0\0\0\
O\x01\x02\0B\0\0\0\0\0\0\0\0\0\0\0\
R\0\x01\x01\x01\0\0\0\0\0\0\0\0\0\0\0\
P\0\0\0\x07\0\0\0\0\0\0\0\0\0\0\0\
P\0\x01\0\x05\0\0\0\0\0\0\0\0\0\0\0\
P\0\x02\0\x05\0\0\0\0\0\0\0\0\0\0\0";

#[test]
fn pairs(rt: HostRuntime) {
    let book = TableBook::new(FILE);
    assert_eq!(rt; pairs_together(&book, 0, 1), 5);
    assert_eq!(rt; pairs_together(&book, 1, 0), 5);
    assert_eq!(rt; pairs_in_all(&book, 0, 1), 6);
    assert_eq!(rt; pairs_together(&book, 0, 0), 0);
    assert_eq!(rt; pairs_together(&book, 0, 2), 0);
    assert_eq!(rt; pairs_in_all(&book, 0, 2), 0);
}

#[test]
fn cheapest(rt: HostRuntime) {
    let tariff = Tariff::new(FILE);
    let book = TableBook::new(FILE);
    let first = Cheapest { value: 1, price: 5 };
    assert!(rt; cheapest_value(&book, &tariff, 0) == Some(first));
    assert!(rt; cheapest_value(&book, &tariff, 2) == None);
}

#[test]
fn lines(rt: HostRuntime) -> Result<(), Fail> {
    let pair = pair_line(rt.alloc(), 10, 11, 0, 1024)?;
    assert_eq!(rt; pair.as_str(), "pair 10 11: 0 of 1024");
    let dearest = Cheapest {
        value: 31,
        price: u64::MAX,
    };
    let line = cheapest_line(rt.alloc(), 0, Some(dearest))?;
    assert_eq!(rt;
        line.as_str(),
        "cheapest of option 0: value 31 at 18446744073709551615"
    );
    let line = cheapest_line(rt.alloc(), 4, None)?;
    assert_eq!(rt; line.as_str(), "cheapest of option 4: none");
    Ok(())
}
