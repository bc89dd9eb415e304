//! What no contract says: that there is memory for the counts.
use crate::PageCounts;
use pe_base::FrameNo;

#[test]
fn counts_rise_and_fall(rt: HostRuntime) {
    let mut counts = PageCounts::new(rt.alloc());
    let one = FrameNo::of(1);
    let two = FrameNo::of(2);
    assert!(rt; counts.add(one).is_ok());
    assert!(rt; counts.add(one).is_ok());
    assert!(rt; counts.add(two).is_ok());
    counts.take(one);
    counts.take(two);
    counts.take(two);
    assert_eq!(rt; (counts.get(one), counts.get(two)), (1, 0));
}
