use crate::count::Count;
use crate::tariff::{Cost, NO_PRICE, Tariff};
use crate::totals::total;
use crate::weighing::Measure;
use crate::weights::{block_weight, configuration_weight};
use value_set::{Block, ValueSet};

// Two options of two values; value 1 of option 0 costs 5, and value 0 of option 1 costs 258.
const BOOK: [u8; 64] = [
    79, 0, 2, 0, 0, 0, 0, 0, 0, 0, 0, 0, 0, 0, 0, 0, //
    79, 1, 2, 0, 0, 0, 0, 0, 0, 0, 0, 0, 0, 0, 0, 0, //
    80, 0, 1, 0, 5, 0, 0, 0, 0, 0, 0, 0, 0, 0, 0, 0, //
    80, 1, 0, 0, 2, 1, 0, 0, 0, 0, 0, 0, 0, 0, 0, 0, //
];

fn cost(price: u64, ways: u64) -> Cost {
    Cost { price, ways }
}

#[test]
fn count(rt: HostRuntime) {
    assert_eq!(rt; Count.sum(u64::MAX, 2), 1);
    assert_eq!(rt; Count.product(1 << 63, 2), 0);
    assert_eq!(rt; Count.weight(11, 31), 1);
    assert_eq!(rt; Count.weight(12, 0), 0);
    assert_eq!(rt; Count.weight(0, 32), 0);
    assert_eq!(rt; total(&Count, &[3, 4, 5]), 12);
    assert_eq!(rt; total(&Count, &[]), 0);
}

#[test]
fn sums_of_costs(rt: HostRuntime) {
    let tariff = Tariff::new(&[]);
    let cases = [
        (cost(NO_PRICE, 7), cost(3, 2), cost(3, 2)),
        (cost(3, 2), cost(NO_PRICE, 7), cost(3, 2)),
        (cost(3, 2), cost(4, 9), cost(3, 2)),
        (cost(4, 9), cost(3, 2), cost(3, 2)),
        (cost(3, 2), cost(3, 9), cost(3, 11)),
        (cost(3, u64::MAX), cost(3, 2), cost(3, 1)),
        (cost(3, u64::MAX), cost(3, 1), cost(3, 0)),
    ];
    for (a, b, sum) in cases {
        assert_eq!(rt; tariff.sum(a, b), sum);
    }
    assert_eq!(rt;
        tariff.sum(cost(NO_PRICE, 1), cost(NO_PRICE, 2)).price,
        NO_PRICE
    );
    assert_eq!(rt; total(&tariff, &[]).price, NO_PRICE);
}

#[test]
fn products_of_costs(rt: HostRuntime) {
    let tariff = Tariff::new(&[]);
    assert_eq!(rt; tariff.product(cost(3, 2), cost(4, 5)), cost(7, 10));
    assert_eq!(rt; tariff.product(cost(3, 1 << 63), cost(4, 2)), cost(7, 0));
    assert_eq!(rt;
        tariff.product(cost(NO_PRICE - 1, 1), cost(0, 1)).price,
        NO_PRICE - 1
    );
    assert_eq!(rt;
        tariff.product(cost(NO_PRICE - 1, 1), cost(1, 1)).price,
        NO_PRICE
    );
    assert_eq!(rt;
        tariff.product(cost(NO_PRICE - 1, 1), cost(9, 1)).price,
        NO_PRICE
    );
    assert_eq!(rt;
        tariff.product(cost(NO_PRICE, 7), cost(0, 1)).price,
        NO_PRICE
    );
    assert_eq!(rt; tariff.product(tariff.one(), cost(8, 3)), cost(8, 3));
}

#[test]
fn prices(rt: HostRuntime) {
    let tariff = Tariff::new(&BOOK);
    assert_eq!(rt; tariff.weight(0, 1), cost(5, 1));
    assert_eq!(rt; tariff.weight(1, 0), cost(258, 1));
    assert_eq!(rt; tariff.weight(0, 0), cost(0, 1));
    assert_eq!(rt; tariff.weight(11, 31), cost(0, 1));
    assert_eq!(rt; tariff.weight(12, 0).price, NO_PRICE);
    assert_eq!(rt; tariff.weight(0, 32).price, NO_PRICE);
    assert_eq!(rt; tariff.price(1, 0), 258);
    assert_eq!(rt; tariff.price(0, 32), NO_PRICE);
    // The file ends within a record, and is refused.
    assert_eq!(rt; Tariff::new(&BOOK[..63]).weight(0, 1), cost(0, 1));
}

#[test]
fn blocks(rt: HostRuntime) {
    let block = Block::EMPTY
        .with_side(0, ValueSet::first(2))
        .with_side(1, ValueSet::first(2));
    let tariff = Tariff::new(&BOOK);
    let weights = [
        configuration_weight(&tariff, &[0, 0]),
        configuration_weight(&tariff, &[0, 1]),
        configuration_weight(&tariff, &[1, 0]),
        configuration_weight(&tariff, &[1, 1]),
    ];
    assert!(rt; weights == [cost(258, 1), cost(0, 1), cost(263, 1), cost(5, 1)]);
    assert_eq!(rt; total(&tariff, &weights), cost(0, 1));
    assert_eq!(rt; block_weight(&tariff, &block, 2), cost(0, 1));
    assert_eq!(rt; block_weight(&tariff, &block, 3).price, NO_PRICE);
    assert_eq!(rt; block_weight(&Count, &block, 2), block.size(2));
}
