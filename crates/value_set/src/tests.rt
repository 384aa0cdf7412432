use crate::block::{Block, OPTIONS};
use crate::places::{PLACES, place_of};
use crate::set::ValueSet;
use std::test::Fail;

#[test]
fn sets(rt: HostRuntime) {
    let set = ValueSet::EMPTY.with(3).with(31).with(0).with(32);
    assert_eq!(rt; set.mask(), 0x8000_0009);
    assert_eq!(rt; set.len(), 3);
    assert_eq!(rt; set.least(), Some(0));
    assert_eq!(rt; set.nth(1), Some(3));
    assert_eq!(rt; set.nth(3), None);
    assert!(rt; set.contains(31));
    assert!(rt; !set.contains(32));
    assert!(rt; set.without(0).is_within(set));
    assert!(rt; !set.is_within(ValueSet::first(31)));
    assert_eq!(rt; set.common(ValueSet::first(4)), ValueSet::from_mask(9));
    assert_eq!(rt;
        set.difference(ValueSet::first(1)),
        ValueSet::from_mask(0x8000_0008)
    );
    assert_eq!(rt;
        set.union(ValueSet::first(2)),
        ValueSet::from_mask(0x8000_000b)
    );
    assert_eq!(rt; ValueSet::first(200).len(), 32);
    assert_eq!(rt; ValueSet::first(200), ValueSet::ALL);
    assert!(rt; ValueSet::EMPTY.is_empty());
}

#[test]
fn ascending(rt: HostRuntime) -> Result<(), Fail> {
    let values: Vec<u8> = ValueSet::from_mask(0b1010_0100)
        .values()
        .collect(rt.alloc())?;
    assert!(rt; values.as_slice() == [2, 5, 7].as_slice());
    Ok(())
}

#[test]
fn blocks(rt: HostRuntime) {
    let block = Block::EMPTY
        .with_side(0, ValueSet::first(2))
        .with_side(1, ValueSet::from_mask(0b1010));
    assert_eq!(rt; block.size(2), 4);
    assert_eq!(rt; block.size(OPTIONS), 0);
    assert!(rt; block.contains(&[1, 3]));
    assert!(rt; !block.contains(&[2, 3]));
    assert!(rt; !block.contains(&[1, 3, 0]));
    assert_eq!(rt;
        Block::new([ValueSet::first(32); OPTIONS]).size(20),
        1 << 60
    );
}

#[test]
fn places(rt: HostRuntime) {
    assert_eq!(rt; place_of(0, 0), Some(0));
    assert_eq!(rt; place_of(1, 0), Some(32));
    assert_eq!(rt; place_of(11, 31), Some(PLACES - 1));
    assert_eq!(rt; place_of(12, 0), None);
    assert_eq!(rt; place_of(0, 32), None);
    assert_eq!(rt; place_of(usize::MAX, 255), None);
}
