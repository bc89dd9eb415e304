//! Values that come and go in an arena.
use pe_arena::{Arena, Handle};
use std::alloc::{AllocError, Global};

/// How many values the arena has.
const LIVE: usize = 16_384;

/// Numbers that look random, the same in each run.
#[derive(Drop)]
struct Draws {
    state: u64,
}

impl Draws {
    fn new() -> Draws {
        Draws { state: 1 }
    }

    /// The next place of a list of `LIVE` items.
    fn place(&mut self) -> usize {
        self.state = self
            .state
            .wrapping_mul(6_364_136_223_846_793_005)
            .wrapping_add(1_442_695_040_888_963_407);
        (self.state >> 33) as usize % LIVE
    }
}

/// Takes a value in. None where the arena has no room.
fn put(arena: &mut Arena<u64>, value: u64) -> Option<Handle> {
    if arena.made() == u64::MAX {
        return None;
    }
    arena.insert(value).ok()
}

/// The handles of `LIVE` values, and the arena that has them.
fn filled(alloc: Global) -> Result<(Arena<u64>, Vec<Handle>), AllocError> {
    let mut arena = Arena::new(alloc, u32::MAX, 0);
    let mut handles = Vec::new(alloc);
    for value in 0..LIVE {
        if let Some(handle) = put(&mut arena, value as u64) {
            handles.push(handle)?;
        }
    }
    Ok((arena, handles))
}

/// How many values are removed at random places, of so many tries, each with another taken in.
pub fn values_changed(alloc: Global, count: u64) -> Result<u64, AllocError> {
    let (mut arena, mut handles) = filled(alloc)?;
    let mut draws = Draws::new();
    let mut changed = 0u64;
    for value in 0..count {
        let place = draws.place();
        if place >= handles.len() {
            continue;
        }
        if arena.remove(handles[place]).is_none() {
            continue;
        }
        if let Some(handle) = put(&mut arena, value) {
            handles[place] = handle;
            changed = changed.saturating_add(1);
        }
    }
    Ok(changed)
}

/// How many values are found at random places, of so many look-ups.
pub fn values_found(alloc: Global, count: u64) -> Result<u64, AllocError> {
    let (arena, handles) = filled(alloc)?;
    let mut draws = Draws::new();
    let mut found = 0u64;
    for _ in 0..count {
        let place = draws.place();
        if place < handles.len() && arena.get(handles[place]).is_some() {
            found = found.saturating_add(1);
        }
    }
    Ok(found)
}
