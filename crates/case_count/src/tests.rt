use crate::Count;

#[test]
fn cases_are_counted(rt: HostRuntime) {
    let mut count = Count::default();
    assert_eq!(rt; (count.cases, count.wrong), (0, 0));
    assert!(rt; count.compare(&7u64, &7));
    assert!(rt; !count.compare(&7u64, &8));
    assert_eq!(rt; (count.cases, count.wrong), (2, 1));
    count.add_failure();
    assert_eq!(rt; (count.cases, count.wrong), (3, 2));
    count.add(Count {
        cases: 10,
        wrong: 4,
    });
    assert_eq!(rt; (count.cases, count.wrong), (13, 6));
}

#[test]
fn the_greatest_count_stays(rt: HostRuntime) {
    let mut count = Count {
        cases: u32::MAX,
        wrong: u32::MAX,
    };
    count.add_failure();
    assert!(rt; !count.compare(&1u8, &2));
    assert_eq!(rt; (count.cases, count.wrong), (u32::MAX, u32::MAX));
}
