//! What no contract says: that there is memory for the inserts, and that the comparisons serve at run time.
use crate::{Arena, DocRef, Handle, Insert};
use pe_base::DocNo;

// An insert after a run-time test of its condition.
fn put(arena: &mut Arena<u32>, value: u32) -> Result<Handle, Insert<u32>> {
    if arena.made() == u64::MAX {
        return Err(Insert::Full(value));
    }
    arena.insert(value)
}

fn handle(slot: u32, generation: u64) -> Handle {
    Handle { slot, generation }
}

#[test]
fn a_slot_at_the_greatest_generation_is_retired(rt: HostRuntime) {
    let mut arena = Arena::new(rt.alloc(), 1, u64::MAX);
    let h = handle(0, u64::MAX);
    assert_eq!(rt; put(&mut arena, 7), Ok(h));
    assert_eq!(rt; put(&mut arena, 8), Err(Insert::Full(8)));
    assert_eq!(rt; arena.remove(h), Some(7));
    assert_eq!(rt; arena.get(h), None);
    assert_eq!(rt; put(&mut arena, 8), Err(Insert::Full(8)));
    assert_eq!(rt; arena.made(), 1);
}

#[test]
fn a_removed_slot_is_used_again(rt: HostRuntime) {
    let mut arena = Arena::new(rt.alloc(), 1, 0);
    let h = handle(0, 0);
    let g = handle(0, 1);
    assert_eq!(rt; put(&mut arena, 7), Ok(h));
    assert_eq!(rt; arena.remove(h), Some(7));
    assert_eq!(rt; put(&mut arena, 8), Ok(g));
    assert_eq!(rt; arena.get(h), None);
    assert_eq!(rt; arena.get(g), Some(&8));
}

#[test]
fn handles_of_several_slots(rt: HostRuntime) {
    let mut arena = Arena::new(rt.alloc(), 3, 5);
    assert_eq!(rt; put(&mut arena, 10), Ok(handle(0, 5)));
    assert_eq!(rt; put(&mut arena, 11), Ok(handle(1, 5)));
    assert_eq!(rt; arena.remove(handle(0, 5)), Some(10));
    assert_eq!(rt; arena.remove(handle(0, 5)), None);
    assert_eq!(rt; put(&mut arena, 12), Ok(handle(0, 6)));
    assert_eq!(rt; put(&mut arena, 13), Ok(handle(2, 5)));
    assert_eq!(rt; put(&mut arena, 14), Err(Insert::Full(14)));
    if let Some(value) = arena.get_mut(handle(0, 6)) {
        *value = 15;
    }
    assert!(rt; arena.get_mut(handle(0, 5)).is_none());
    assert_eq!(rt; arena.get(handle(0, 6)), Some(&15));
    assert_eq!(rt; arena.get(handle(1, 5)), Some(&11));
    assert_eq!(rt; arena.made(), 4);
}

// Each number of values is taken in, and all of them are taken out: the lists grow several times.
#[test]
fn many_values(rt: HostRuntime) {
    let mut arena = Arena::new(rt.alloc(), u32::MAX, 0);
    for value in 0..1000u32 {
        assert_eq!(rt; put(&mut arena, value), Ok(handle(value, 0)));
    }
    for value in 0..1000u32 {
        assert_eq!(rt; arena.remove(handle(value, 0)), Some(value));
    }
    for value in 0..1000u32 {
        assert!(rt; put(&mut arena, value).is_ok());
    }
    assert_eq!(rt; arena.made(), 2000);
}

#[test]
fn names_of_documents_compare(rt: HostRuntime) {
    let first = DocRef {
        at: handle(1, 0),
        doc: DocNo::of(2),
    };
    let later = DocRef {
        at: handle(1, 0),
        doc: DocNo::of(3),
    };
    assert_eq!(rt; first, first);
    assert_ne!(rt; first, later);
    assert!(rt; handle(0, 9) < handle(1, 0));
}
