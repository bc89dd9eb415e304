//! What no contract says: that there is memory for frames, and that the tree serves a document at run time.
ghost use Rattle.std.specs.Prelude.{◌≡◌, ◌<◌, ◌≤◌};

use crate::{Frames, Numbered, TreeFault};
use pe_arena::{DocRef, Handle};
use pe_base::{DocNo, FrameNo, Steps};
use std::marker::Brand;
use std::sync::ledger::{Blank, Ledger};

#[derive(Drop)]
struct Document {
    number: DocNo,
}

impl Numbered for Document {
    ghost doc_no = { λ d. d.number };

    fn number(&self) -> DocNo {
        self.number
    }
}

// A page of this number, after a run-time test of the condition.
fn page(frames: &mut Frames<Document>, number: u32) -> Result<Handle, TreeFault>
    requires low { 1 ≤ number }
    requires high { number ≤ 1000 }
{
    if frames.made() >= 4_294_967_295 {
        return Err(TreeFault::TooManyPages);
    }
    let document = Document {
        number: DocNo::of(number),
    };
    frames.open_page(FrameNo::of(number), document)
}

#[test]
fn pages_up_to_the_limit(rt: HostRuntime) {
    let mut frames = Frames::new(rt.alloc());
    for number in 1..65u32 {
        let handle = Handle {
            slot: number - 1,
            generation: 0,
        };
        assert_eq!(rt; page(&mut frames, number), Ok(handle));
        assert_eq!(rt; frames.top(handle), Some(handle));
        assert_eq!(rt; frames.parent(handle), None);
    }
    assert_eq!(rt; page(&mut frames, 65), Err(TreeFault::TooManyPages));
    assert_eq!(rt; frames.pages(), 64);
    assert_eq!(rt; frames.made(), 64);
}

// A frame of this number below the parent, after a run-time test of the condition.
fn child(frames: &mut Frames<Document>, parent: Handle, number: u32) -> Result<Handle, TreeFault>
    requires low { 1 ≤ number }
    requires high { number ≤ 1000 }
{
    if frames.made() >= 4_294_967_295 {
        return Err(TreeFault::TooManyPages);
    }
    let document = Document {
        number: DocNo::of(number),
    };
    frames.embed(parent, FrameNo::of(number), document)
}

fn handle(slot: u32) -> Handle {
    Handle {
        slot,
        generation: 0,
    }
}

#[test]
fn sixty_four_levels(rt: HostRuntime) {
    let mut frames = Frames::new(rt.alloc());
    assert_eq!(rt; page(&mut frames, 1), Ok(handle(0)));
    for number in 1..64u32 {
        assert_eq!(rt;
            child(&mut frames, handle(number - 1), number + 1),
            Ok(handle(number))
        );
        assert_eq!(rt; frames.parent(handle(number)), Some(handle(number - 1)));
    }
    assert_eq!(rt; child(&mut frames, handle(63), 65), Err(TreeFault::TooDeep));
    assert_eq!(rt; child(&mut frames, handle(64), 65), Err(TreeFault::Stale));
    assert_eq!(rt; frames.top(handle(63)), Some(handle(0)));
    assert_eq!(rt; frames.page_size(handle(63)), Some(64));
    assert_eq!(rt;
        frames.preorder_next(handle(0), handle(62)),
        Some(handle(63))
    );
    assert_eq!(rt; frames.preorder_next(handle(0), handle(63)), None);
    let closed = frames.close(handle(32)).map(|docs| docs.len());
    assert_eq!(rt; closed, Ok(32));
    assert_eq!(rt; frames.page_size(handle(0)), Some(32));
}

#[test]
fn two_hundred_and_fifty_six_frames(rt: HostRuntime) {
    let mut frames = Frames::new(rt.alloc());
    assert_eq!(rt; page(&mut frames, 1), Ok(handle(0)));
    for number in 1..256u32 {
        assert_eq!(rt;
            child(&mut frames, handle(0), number + 1),
            Ok(handle(number))
        );
    }
    assert_eq!(rt; child(&mut frames, handle(0), 257), Err(TreeFault::TooMany));
    assert_eq!(rt; frames.page_size(handle(255)), Some(256));
    assert_eq!(rt; frames.page_size(handle(256)), None);
    assert_eq!(rt; frames.pages(), 1);
    assert!(rt; have_each(frames.close(handle(0)), 256));
    assert_eq!(rt; frames.page_size(handle(0)), None);
    assert_eq!(rt; frames.pages(), 0);
}

fn again(slot: u32) -> Handle {
    Handle {
        slot,
        generation: 1,
    }
}

// Navigates the frame to a document of this number.
fn go(frames: &mut Frames<Document>, h: Handle, number: u32) -> Result<Vec<Document>, TreeFault>
    requires low { 1 ≤ number }
    requires high { number ≤ 1000 }
{
    let document = Document {
        number: DocNo::of(number),
    };
    frames.navigate(h, document)
}

// Whether the documents have these numbers.
fn have(docs: Result<Vec<Document>, TreeFault>, numbers: &[u32]) -> bool {
    let Ok(docs) = docs else {
        return false;
    };
    if docs.len() != numbers.len() {
        return false;
    }
    for (doc, number) in docs.iter().zip(numbers) {
        if doc.number.get() != *number {
            return false;
        }
    }
    true
}

// Whether the documents have the numbers from 1 up to this one.
fn have_each(docs: Result<Vec<Document>, TreeFault>, count: usize) -> bool {
    let Ok(docs) = docs else {
        return false;
    };
    for (i, doc) in docs.iter().enumerate() {
        if doc.number.get() as usize != i + 1 {
            return false;
        }
    }
    docs.len() == count
}

// The refusal, if there is one.
fn fault(docs: Result<Vec<Document>, TreeFault>) -> Option<TreeFault> {
    match docs {
        Ok(_) => None,
        Err(fault) => Some(fault),
    }
}

// How many of the three counted calls reach the frame of the handle, or its document of this number.
fn reached<L: Ledger>(frames: &mut Frames<Document>, h: Handle, doc: DocNo, blank: Blank) -> u32
    requires name { blank.name ≡ L.name }
    requires parts { blank.parts ≡ L.parts }
    requires some { 0 < blank.parts }
{
    let mut steps = Steps::<L>::start(blank);
    let node = frames.node(h, &mut steps).is_some();
    let shown = frames.doc(DocRef { at: h, doc }, &mut steps).is_some();
    let written = frames.doc_mut(h, &mut steps).is_some();
    u32::from(node) + u32::from(shown) + u32::from(written)
}

#[test]
fn counted_calls_on_a_slot_that_is_used_again(rt: HostRuntime) {
    let mut frames = Frames::new(rt.alloc());
    let one = DocNo::of(1);
    assert_eq!(rt; page(&mut frames, 1), Ok(handle(0)));
    assert_eq!(rt;
        reached::<Brand>(&mut frames, handle(0), one, Blank::new(1)),
        3
    );
    assert!(rt; have(frames.close(handle(0)), &[1]));
    assert_eq!(rt; page(&mut frames, 2), Ok(again(0)));
    assert_eq!(rt;
        reached::<Brand>(&mut frames, handle(0), one, Blank::new(1)),
        0
    );
    assert_eq!(rt;
        reached::<Brand>(&mut frames, again(0), one, Blank::new(1)),
        2
    );
}

#[test]
fn a_slot_is_used_again(rt: HostRuntime) {
    let mut frames = Frames::new(rt.alloc());
    let old = handle(0);
    assert_eq!(rt; page(&mut frames, 1), Ok(old));
    assert!(rt; have(frames.close(old), &[1]));
    assert_eq!(rt; page(&mut frames, 2), Ok(again(0)));
    assert_eq!(rt; frames.top(old), None);
    assert_eq!(rt; frames.parent(old), None);
    assert_eq!(rt; frames.page_size(old), None);
    assert_eq!(rt; frames.next_child(old, None), None);
    assert_eq!(rt; frames.next_child(again(0), Some(old)), None);
    assert_eq!(rt; frames.preorder_next(old, old), None);
    assert_eq!(rt; frames.preorder_next(again(0), old), None);
    assert_eq!(rt; child(&mut frames, old, 3), Err(TreeFault::Stale));
    assert_eq!(rt; fault(go(&mut frames, old, 3)), Some(TreeFault::Stale));
    assert_eq!(rt; fault(frames.close(old)), Some(TreeFault::Stale));
    assert_eq!(rt; frames.pages(), 1);
    assert_eq!(rt; frames.made(), 2);
}

// Three levels: 0 has 1, 2 and 3; 1 has 4 and 5; 2 has 6; 3 has 7.
fn three_levels(frames: &mut Frames<Document>) -> bool {
    let made = page(frames, 1) == Ok(handle(0));
    let one = child(frames, handle(0), 2) == Ok(handle(1));
    let two = child(frames, handle(0), 3) == Ok(handle(2));
    let three = child(frames, handle(0), 4) == Ok(handle(3));
    let four = child(frames, handle(1), 5) == Ok(handle(4));
    let five = child(frames, handle(1), 6) == Ok(handle(5));
    let six = child(frames, handle(2), 7) == Ok(handle(6));
    let seven = child(frames, handle(3), 8) == Ok(handle(7));
    made && one && two && three && four && five && six && seven
}

// Whether the walk below the root gives these slots, and then no more.
fn walks(frames: &Frames<Document>, root: Handle, slots: &[u32]) -> bool {
    let mut at = root;
    for slot in slots {
        match frames.preorder_next(root, at) {
            Some(next) if next.slot == *slot => at = next,
            _ => return false,
        }
    }
    frames.preorder_next(root, at).is_none()
}

#[test]
fn siblings_after_a_middle_child_was_closed(rt: HostRuntime) {
    let mut frames = Frames::new(rt.alloc());
    let top = handle(0);
    assert!(rt; three_levels(&mut frames));
    assert!(rt; walks(&frames, top, &[1, 4, 5, 2, 6, 3, 7]));
    assert!(rt; walks(&frames, handle(1), &[4, 5]));
    assert_eq!(rt; frames.preorder_next(handle(1), handle(2)), None);
    assert_eq!(rt; frames.preorder_next(handle(1), top), None);
    assert!(rt; have(frames.close(handle(2)), &[3, 7]));
    assert_eq!(rt; frames.page_size(top), Some(6));
    assert_eq!(rt; frames.next_child(top, None), Some(handle(1)));
    assert_eq!(rt; frames.next_child(top, Some(handle(1))), Some(handle(3)));
    assert_eq!(rt; frames.next_child(top, Some(handle(2))), None);
    assert_eq!(rt; frames.next_child(top, Some(handle(3))), None);
    assert_eq!(rt; frames.next_child(top, Some(handle(4))), None);
    assert!(rt; walks(&frames, top, &[1, 4, 5, 3, 7]));
    assert!(rt; have(frames.close(handle(3)), &[4, 8]));
    assert!(rt; have(frames.close(handle(4)), &[5]));
    assert!(rt; walks(&frames, top, &[1, 5]));
    assert_eq!(rt; frames.pages(), 1);
}

#[test]
fn navigation_removes_what_is_below(rt: HostRuntime) {
    let mut frames = Frames::new(rt.alloc());
    let top = handle(0);
    assert!(rt; three_levels(&mut frames));
    assert!(rt; have(go(&mut frames, handle(1), 9), &[2, 5, 6]));
    assert!(rt; walks(&frames, top, &[1, 2, 6, 3, 7]));
    assert_eq!(rt; frames.page_size(top), Some(6));
    assert_eq!(rt; frames.top(handle(4)), None);
    assert!(rt; have(go(&mut frames, handle(1), 10), &[9]));
    assert!(rt; have(go(&mut frames, top, 11), &[1, 10, 3, 7, 4, 8]));
    assert!(rt; walks(&frames, top, &[]));
    assert_eq!(rt; frames.page_size(top), Some(1));
    assert_eq!(rt; frames.pages(), 1);
    assert_eq!(rt; frames.made(), 8);
}
