//! Frames that come and go in a tree.
use pe_arena::Handle;
use pe_base::{DocNo, FRAME_LIMIT, FrameNo, PAGE_LIMIT};
use pe_frames::{Frames, Numbered};
use std::alloc::{AllocError, Global};

/// The number that every frame and document has here.
const NUMBER: u32 = 1;

/// A document that is nothing but its number.
#[derive(Drop)]
struct Document {
    number: DocNo,
}

impl Document {
    fn new() -> Document {
        Document {
            number: DocNo::of(NUMBER),
        }
    }
}

impl Numbered for Document {
    ghost doc_no = { λ d. d.number };

    fn number(&self) -> DocNo {
        self.number
    }
}

/// Opens a page. None where there is no room for it.
fn page(frames: &mut Frames<Document>) -> Option<Handle> {
    if frames.made() >= u64::from(u32::MAX) {
        return None;
    }
    frames.open_page(FrameNo::of(NUMBER), Document::new()).ok()
}

/// Embeds a frame in the parent. None where there is no room for it.
fn child(frames: &mut Frames<Document>, parent: Handle) -> Option<Handle> {
    if frames.made() >= u64::from(u32::MAX) {
        return None;
    }
    frames
        .embed(parent, FrameNo::of(NUMBER), Document::new())
        .ok()
}

/// Opens a page of so many frames, in which a frame embeds two at most, and lists their handles, that of
/// the top frame first.
fn full_page(
    frames: &mut Frames<Document>,
    size: u32,
    handles: &mut Vec<Handle>,
) -> Result<(), AllocError> {
    handles.clear();
    if let Some(top) = page(frames) {
        handles.push(top)?;
    }
    'children: for _ in 1..size {
        let parent = handles.len().saturating_sub(1) / 2;
        if parent >= handles.len() {
            continue;
        }
        if let Some(handle) = child(frames, handles[parent]) {
            handles.push(handle)?;
        }
    }
    Ok(())
}

/// How many documents are given back where so many pages of so many frames are opened and closed,
/// one after another.
pub fn documents_closed(alloc: Global, pages: u32, size: u32) -> Result<u64, AllocError> {
    let mut frames = Frames::new(alloc);
    let mut handles = Vec::new(alloc);
    let mut documents = 0u64;
    'pages: for _ in 0..pages {
        full_page(&mut frames, size, &mut handles)?;
        if handles.is_empty() {
            continue;
        }
        if let Ok(closed) = frames.close(handles[0]) {
            documents = documents.saturating_add(closed.len() as u64);
        }
    }
    Ok(documents)
}

/// How many frames are embedded and closed again, of so many tries, where with each of them so many
/// frames are live.
pub fn leaves_changed(alloc: Global, live: u32, count: u32) -> Result<u64, AllocError> {
    let mut frames = Frames::new(alloc);
    let mut handles = Vec::new(alloc);
    let mut left = live.saturating_sub(1);
    'pages: for _ in 0..PAGE_LIMIT {
        if left > 0 {
            let size = left.min(FRAME_LIMIT);
            full_page(&mut frames, size, &mut handles)?;
            left -= size;
        }
    }
    if handles.is_empty() {
        return Ok(0);
    }
    Ok(changed_below(&mut frames, handles[0], count))
}

/// How many frames are embedded in the parent and closed again, of so many tries.
fn changed_below(frames: &mut Frames<Document>, parent: Handle, count: u32) -> u64 {
    let mut changed = 0u64;
    'leaves: for _ in 0..count {
        if let Some(leaf) = child(frames, parent) {
            if frames.close(leaf).is_ok() {
                changed = changed.saturating_add(1);
            }
        }
    }
    changed
}
