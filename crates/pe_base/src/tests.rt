//! What no contract says: that there is memory for a copy, and that the comparisons serve at run time.
ghost use Rattle.std.specs.Prelude.{◌≡◌, ◌+◌, ◌<◌};

use crate::{Bytes, DocNo, FrameNo, Steps};
use std::cmp::Ordering;
use std::collections::HashMap;
use std::marker::Brand;
use std::sync::ledger::{Blank, Ledger};
use std::test::Fail;

#[test]
fn bytes_copy_and_compare(rt: HostRuntime) -> Result<(), Fail> {
    let low = Bytes::of(b"ab".to_vec(rt.alloc())?);
    let high = Bytes::of(b"abc".to_vec(rt.alloc())?);
    assert_eq!(rt; low.copy()?, low);
    assert_ne!(rt; low, high);
    assert_eq!(rt; low.cmp(&high), Ordering::Less);
    Ok(())
}

#[test]
fn bytes_are_keys(rt: HostRuntime) -> Result<(), Fail> {
    let mut map = HashMap::new(rt.alloc());
    map.insert(Bytes::of(b"ab".to_vec(rt.alloc())?), 1u8)?;
    let same = Bytes::of(b"ab".to_vec(rt.alloc())?);
    let other = Bytes::of(b"a".to_vec(rt.alloc())?);
    assert_eq!(rt; map.get(&same).copied(), Some(1));
    assert_eq!(rt; map.get(&other).copied(), None);
    Ok(())
}

#[test]
fn numbers_compare(rt: HostRuntime) {
    assert!(rt; DocNo::of(1) < DocNo::of(2));
    assert_eq!(rt; FrameNo::of(1_000_000).get(), 1_000_000);
}

/// Counts two more steps.
fn count_two<L: Ledger>(steps: &mut Steps<L>)
    ensures { steps.new ≡ steps.old + 2 }
{
    steps.tick();
    steps.tick();
}

/// Counts two steps from a new count.
fn count_from_start<L: Ledger>(blank: Blank)
    requires name { blank.name ≡ L.name }
    requires parts { blank.parts ≡ L.parts }
    requires some { 0 < blank.parts }
{
    let mut steps: Steps<L> = Steps::start(blank);
    count_two(&mut steps);
}

#[test]
fn steps_are_counted() {
    count_from_start::<Brand>(Blank::new(1));
}
