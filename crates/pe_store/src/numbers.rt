//! Numbers kept under pairs of a feature and a key.
ghost use Rattle.std.specs.Prelude.{◌≡◌, ◌<◌, None, Some, [], IfOk, OnOk, OnErr, length};
ghost use Rattle.pe_store.specs.Numbers.{number_in, number_at, number_of, IsChangedIn, IsChangedAt, IsChangedFor, HoldsNone};

use crate::key::Key;
use crate::law::same_pairs_are_one;
use indexmap::IndexMap;
use pe_features::Feature;
use std::alloc::{AllocError, Global};
use std::marker::Model;

// The numbers of one feature's keys. The order of the map is never seen.
#[derive(Drop)]
pub(crate) struct Group {
    map: IndexMap<Key, u64>,
}

impl Model for Group {
    ghost use Rattle.std.specs.Prelude.{List, ℕ};
    ghost use Rattle.pe_store.specs.declared.key.Key.{Key};

    ghost Value = { List (Key × ℕ) };

    ghost view = { λ g. g.map.entries };
}

impl Group {
    // No number.
    fn new(alloc: Global) -> Group
        ensures { result ≡ [] }
    {
        Group {
            map: IndexMap::new(alloc),
        }
    }

    // The number of a key.
    fn number(&self, key: &Key) -> Option<u64>
        ensures { result ≡ number_in self.now key.now }
    {
        same_pairs_are_one();
        // Where no key has a number none is hashed.
        if self.map.is_empty() {
            return None;
        }
        self.map.get(key).copied()
    }

    // Gives a key its number.
    fn put(&mut self, key: Key, number: u64) -> Result<(), AllocError>
        ensures ok { OnOk result (IsChangedIn key (Some number) self.old self.new) }
        ensures err { OnErr result (self.new ≡ self.old) }
    {
        same_pairs_are_one();
        self.map.insert(key, number)?;
        Ok(())
    }

    // Takes the number of a key away.
    fn remove(&mut self, key: &Key)
        ensures { IsChangedIn key.now None self.old self.new }
    {
        same_pairs_are_one();
        if self.map.is_empty() {
            return;
        }
        self.map.swap_remove(key);
    }
}

// The number of a key in the group at the place.
fn number_at(groups: &[Group], place: usize, key: &Key) -> Option<u64>
    requires { place < length groups.now }
    ensures { result ≡ number_at groups.now place key.now }
{
    groups[place].number(key)
}

// Gives a key its number in the group at the place.
fn put_at(groups: &mut [Group], place: usize, key: Key, number: u64) -> Result<(), AllocError>
    requires { place < length groups.old }
    ensures ok { OnOk result (IsChangedAt place key (Some number) groups.old groups.new) }
    ensures err { OnErr result (groups.new ≡ groups.old) }
{
    groups[place].put(key, number)
}

// Takes the number of a key away in the group at the place.
fn remove_at(groups: &mut [Group], place: usize, key: &Key)
    requires { place < length groups.old }
    ensures { IsChangedAt place key.now None groups.old groups.new }
{
    groups[place].remove(key);
}

/// Numbers under pairs of a feature and a permission key. A call costs what one look-up by the hash of a
/// key costs, however many pairs have numbers.
#[derive(Drop)]
pub struct PairNumbers {
    groups: [Group; 16],
}

impl Model for PairNumbers {
    ghost use Rattle.std.specs.Prelude.{◌≡◌, List, ℕ, length};
    ghost use Rattle.pe_store.specs.declared.key.Key.{Key};

    ghost Value = { List (List (Key × ℕ)) };

    ghost view = { λ n. n.groups };

    ghost invariant = { λ n. length n.groups ≡ 16 };
}

impl PairNumbers {
    /// No number. Nothing is allocated.
    pub fn new(alloc: Global) -> PairNumbers
        ensures { HoldsNone result }
    {
        PairNumbers {
            groups: [
                Group::new(alloc),
                Group::new(alloc),
                Group::new(alloc),
                Group::new(alloc),
                Group::new(alloc),
                Group::new(alloc),
                Group::new(alloc),
                Group::new(alloc),
                Group::new(alloc),
                Group::new(alloc),
                Group::new(alloc),
                Group::new(alloc),
                Group::new(alloc),
                Group::new(alloc),
                Group::new(alloc),
                Group::new(alloc),
            ],
        }
    }

    /// The number of a pair.
    pub fn number(&self, feature: Feature, key: &Key) -> Option<u64>
        ensures { result ≡ number_of self.now (feature, key.now) }
    {
        number_at(&self.groups, feature.index(), key)
    }

    /// Gives a pair its number, in place of one that it has. `AllocError` where memory wants.
    pub fn put(&mut self, feature: Feature, key: Key, number: u64) -> Result<(), AllocError>
        ensures ok { OnOk result (IsChangedFor (feature, key) (Some number) self.old self.new) }
        ensures err { OnErr result (self.new ≡ self.old) }
    {
        put_at(&mut self.groups, feature.index(), key, number)
    }

    /// Takes the number of a pair away, if it has one.
    pub fn remove(&mut self, feature: Feature, key: &Key)
        ensures { IsChangedFor (feature, key.now) None self.old self.new }
    {
        remove_at(&mut self.groups, feature.index(), key);
    }
}
