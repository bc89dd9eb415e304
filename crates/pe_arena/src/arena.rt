//! The arena.
ghost use Rattle.std.specs.Prelude.{◌≡◌, ◌≢◌, ◌+◌, ◌-◌, ◌<◌, ◌≤◌, ◌^◌, ◌↔◌, [], IsSome, IsTrue, IfOk, IfErr, OnOk, OnErr, OnSome, Some, None, Err, length, option_copied, vec_len, vec_capacity};
ghost use Rattle.std.specs.Option.{option_copied_mut};
ghost use Rattle.std.specs.Borrow.{sem};
ghost use Rattle.slab.specs.Slab.{HasRoomFor};
ghost use Rattle.pe_arena.specs.Slots.{live, mark, holding, emptied, IsFree, HasFree, HasNoFree, IsNext, IsFull, IsGiven, HandsBack, Updates, StayDead, with_value};

use crate::handle::Handle;
use slab::Slab;
use std::alloc::{AllocError, Global};
use std::marker::Model;

/// Why a value was not taken in. It is handed back.
#[derive(Debug, Drop, PartialEq, Eq)]
pub enum Insert<T> {
    /// Each slot that the limit allows was made, and none of them is free.
    Full(T),
    /// Memory wants.
    Memory(T),
}

// A slot: the generation of its last handle, and the key of its value while it holds one.
#[derive(Clone, Copy)]
struct Row {
    generation: u64,
    key: Option<usize>,
}

impl Row {
    // The row of a slot that holds the value under this key.
    fn holding(generation: u64, key: usize) -> Row
        ensures { result ≡ record { generation = generation; key = Some key } }
    {
        Row {
            generation,
            key: Some(key),
        }
    }

    // Whether the slot may be used again once its value is gone.
    fn has_next_generation(self) -> bool
        ensures { IsTrue result ↔ (self.generation + 1 < 2 ^ 64) }
    {
        self.generation < u64::MAX
    }
}

/// Values under handles. A handle is live from the insert that gave it to the removal of its value,
/// and never again: a slot is used again, but for each value at the next generation. Once a slot has
/// given the greatest generation and its value is removed, it is retired.
#[derive(Drop)]
pub struct Arena<T> {
    values: Slab<T>,
    rows: Vec<Row>,
    free: Vec<u32>,
    limit: u32,
    first: u64,
    made: u64,
}

impl<T> Model for Arena<T> {
    ghost use Rattle.std.specs.Prelude.{map, vec_capacity};
    ghost use Rattle.pe_arena.specs.Slots.{Slots, slots_code};

    ghost Value = { Slots T };

    ghost coded = { slots_code T.code };

    ghost use Rattle.pe_arena.specs.Rows.{slot_of, IsArena};

    ghost view = { λ a. record {
      slots = map (slot_of a.values) a.rows.items;
      limit = a.limit;
      first = a.first;
      made = a.made;
    } };

    ghost invariant = { λ a. IsArena a.values a.rows.items a.free.items (vec_capacity a.free) a.limit a.made };
}

// Makes the growths of one more slot. There is then room to list each slot as free, so that a removal
// takes no memory.
fn make_room<T>(
    values: &mut Slab<T>,
    rows: &mut Vec<Row>,
    free: &mut Vec<u32>,
) -> Result<(), AllocError>
    requires { vec_len rows.old < u32.MAX }
    ensures for_value { OnOk result (HasRoomFor values.new 1) }
    ensures for_row { OnOk result (vec_len rows.new < vec_capacity rows.new) }
    ensures for_free { OnOk result (vec_len rows.new < vec_capacity free.new) }
    ensures values { values.new ≡ record values.old { capacity = values.new.capacity } }
    ensures rows { rows.new.items ≡ rows.old.items }
    ensures free { free.new.items ≡ free.old.items }
    ensures free_room { vec_capacity free.old ≤ vec_capacity free.new }
{
    values.reserve(1)?;
    rows.reserve(1)?;
    free.reserve(rows.len() + 1)
}

impl<T> Arena<T> {
    ghost use Rattle.pe_arena.specs.Lends.{lends_value, lends_get};

    /// An arena with no value. It makes at most `limit` slots, and each begins at generation `first`.
    pub fn new(alloc: Global, limit: u32, first: u64) -> Arena<T>
        ensures { result ≡ record { slots = []; limit = limit; first = first; made = 0 } }
    {
        Arena {
            values: Slab::new(alloc),
            rows: Vec::new(alloc),
            free: Vec::new(alloc),
            limit,
            first,
            made: 0,
        }
    }

    /// How many values were taken in, those that are gone among them.
    pub fn made(&self) -> u64
        ensures value { result ≡ self.now.made }
        ensures slots { length self.now.slots ≤ result }
    {
        self.made
    }

    /// Takes a value in, under a handle that no insert gave before: its generation is the slot's mark,
    /// which is then one more. A slot that is free is used again, and one is made where none is free.
    pub fn insert(&mut self, value: T) -> Result<Handle, Insert<T>>
        requires { self.old.made < u64.MAX }
        ensures slot { IfOk result (λ h. IsNext self.old h.slot) }
        ensures generation { IfOk result (λ h. h.generation ≡ mark self.old h.slot) }
        ensures slots { IfOk result (λ h. self.new ≡ holding self.old h.slot value) }

        // The handle was not live and is live with the value, all other handles are as before, and no dead
        // one lives again.
        ensures new { IfOk result (λ h. live self.old h ≡ None) }
        ensures given { IfOk result (λ h. IsGiven self.old self.new h) }
        ensures updates { IfOk result (λ h. Updates self.old self.new h (Some value)) }
        ensures dead { StayDead self.old self.new }

        // It fails where there is no slot or no memory, and then nothing changes.
        ensures full { (result ≡ Err (Insert.Full value)) ↔ IsFull self.old }
        ensures back { IfErr result (HandsBack value) }
        ensures err { OnErr result (self.new ≡ self.old) }
    {
        if self.free.is_empty() {
            self.insert_in_new_slot(value)
        } else {
            self.insert_in_free_slot(value)
        }
    }

    fn insert_in_new_slot(&mut self, value: T) -> Result<Handle, Insert<T>>
        requires room { self.old.made < u64.MAX }
        requires none { HasNoFree self.old }
        ensures slot { IfOk result (λ h. IsNext self.old h.slot) }
        ensures generation { IfOk result (λ h. h.generation ≡ mark self.old h.slot) }
        ensures slots { IfOk result (λ h. self.new ≡ holding self.old h.slot value) }
        ensures full { (result ≡ Err (Insert.Full value)) ↔ (length self.old.slots ≡ self.old.limit) }
        ensures back { IfErr result (HandsBack value) }
        ensures err { OnErr result (self.new ≡ self.old) }
    {
        let slot = self.rows.len();
        if slot == self.limit as usize {
            return Err(Insert::Full(value));
        }
        if make_room(&mut self.values, &mut self.rows, &mut self.free).is_err() {
            return Err(Insert::Memory(value));
        }
        let generation = self.first;
        let key = self.values.insert_reserved(value);
        self.rows.push_reserved(Row::holding(generation, key));
        self.made += 1;
        Ok(Handle {
            slot: slot as u32,
            generation,
        })
    }

    fn insert_in_free_slot(&mut self, value: T) -> Result<Handle, Insert<T>>
        requires room { self.old.made < u64.MAX }
        requires some { HasFree self.old }
        ensures slot { IfOk result (λ h. IsFree self.old h.slot) }
        ensures generation { IfOk result (λ h. h.generation ≡ mark self.old h.slot) }
        ensures slots { IfOk result (λ h. self.new ≡ holding self.old h.slot value) }
        ensures full { result ≢ Err (Insert.Full value) }
        ensures back { IfErr result (HandsBack value) }
        ensures err { OnErr result (self.new ≡ self.old) }
    {
        if self.values.reserve(1).is_err() {
            return Err(Insert::Memory(value));
        }
        let slot = self.free.pop().unwrap();
        let generation = self.rows[slot as usize].generation + 1;
        let key = self.values.insert_reserved(value);
        self.rows[slot as usize] = Row::holding(generation, key);
        self.made += 1;
        Ok(Handle { slot, generation })
    }

    /// The value of the handle; None where the handle is not live.
    pub fn get(&self, h: Handle) -> Option<&T>
        ensures { option_copied result ≡ live self.now h }
    {
        let row = self.rows.get(h.slot as usize)?;
        if row.generation != h.generation {
            return None;
        }
        self.values.get(row.key?)
    }

    fn is_live(&self, h: Handle) -> bool
        ensures { IsTrue result ↔ IsSome (live self.now h) }
    {
        self.get(h).is_some()
    }

    /// The value of the handle, to write; None where the handle is not live. Whatever is written, all
    /// other handles are as before.
    #[tactic(auto, using(crate::proofs::Live::write_updates))]
    pub fn get_mut(&mut self, h: Handle) -> Option<&mut T>
        ensures* lends { sem 𝓛 (lends_get T.row self.entry h result) }
        ensures value { option_copied_mut result ≡ live self.old h }
        ensures alone { (value : T) → IsSome (live self.old h) → Updates self.old (with_value self.old h.slot value) h (Some value) }
    {
        if self.is_live(h) {
            Some(self.value_mut(h))
        } else {
            None
        }
    }

    fn value_mut(&mut self, h: Handle) -> &mut T
        requires { IsSome (live self.old h) }
        ensures* lends { sem 𝓛 (lends_value T.row self.entry h result) }
        ensures value { live self.old h ≡ Some result.now }
    {
        let key = self.rows[h.slot as usize].key.unwrap();
        self.values.get_mut(key).unwrap()
    }

    /// Takes the value of the handle out; None where the handle is not live. The slot is free from
    /// then on, or retired where the handle has the greatest generation.
    pub fn remove(&mut self, h: Handle) -> Option<T>
        ensures value { result ≡ live self.old h }
        ensures slots { OnSome result (self.new ≡ emptied self.old h.slot) }
        ensures absent { result ≡ None → self.new ≡ self.old }

        // The handle is not live, all other handles are as before, and no dead one lives again.
        ensures updates { Updates self.old self.new h None }
        ensures dead { StayDead self.old self.new }
    {
        if self.is_live(h) {
            Some(self.take(h))
        } else {
            None
        }
    }

    fn take(&mut self, h: Handle) -> T
        requires { IsSome (live self.old h) }
        ensures value { live self.old h ≡ Some result }
        ensures slots { self.new ≡ emptied self.old h.slot }
    {
        let slot = h.slot as usize;
        let row = self.rows[slot];
        let value = self.values.remove(row.key.unwrap());
        self.rows[slot] = Row {
            generation: row.generation,
            key: None,
        };
        if row.has_next_generation() {
            self.free.push_reserved(h.slot);
        }
        value
    }
}
