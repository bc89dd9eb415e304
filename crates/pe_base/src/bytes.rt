//! Owned bytes.
ghost use Rattle.std.specs.Prelude.{◌≡◌, ◌↔◌, ◌*◌, ◌≤◌, ℕ, IfOk, IsTrue, refl, Some, cond, length};
ghost use Rattle.std.proofs.Common.{rules};
ghost use Rattle.std.specs.Cmp.{partial_equiv_from_equiv};
ghost use Rattle.std.specs.Cmp.Lexicographic.{pointwise, slice_cmp, nat_list_eq_equiv, nat_list_cmp_total, texts_ties, texts_po};
ghost use Rattle.std.specs.Cmp.Rules.{hashing};
ghost use Rattle.std.specs.Hash as fed;
ghost use Rattle.std.specs.Ordering.{nat_cmp};
ghost use Rattle.std.specs.Str.{bytes_eq};

use smallvec::SmallVec;
use std::alloc::{AllocError, Global};
use std::cmp::Ordering;
use std::hash::{Hash, Hasher};
use std::marker::Model;

/// Bytes that are owned, seen by contracts as their list. They are compared byte for byte, in
/// lexicographic order. Up to 24 of them that are copied, as most hosts are, stand in the value itself and take
/// no memory.
#[derive(Debug, Drop)]
pub struct Bytes {
    items: SmallVec<u8, 24>,
}

impl Model for Bytes {
    ghost use Rattle.std.specs.Prelude.{List, ℕ};

    ghost Value = { List ℕ };

    ghost view = { λ b. b.items.items };
}

impl Bytes {
    /// Owns the given bytes, in the memory that they have.
    pub fn of(items: Vec<u8>) -> Bytes
        ensures { result ≡ items.items }
    {
        Bytes {
            items: SmallVec::from_vec(items),
        }
    }

    /// Owns a copy of the given bytes; `AllocError` where memory wants.
    pub fn copy_of(alloc: Global, bytes: &[u8]) -> Result<Bytes, AllocError>
        ensures { IfOk result (λ b. b ≡ bytes.now) }
    {
        let items = SmallVec::from_slice(alloc, bytes)?;
        Ok(Bytes { items })
    }

    /// The bytes.
    pub fn as_slice(&self) -> &[u8]
        ensures { result.now ≡ self.now }
    {
        self.items.as_slice()
    }

    /// An equal value of its own; `AllocError` where memory wants.
    pub fn copy(&self) -> Result<Bytes, AllocError>
        ensures { IfOk result (λ b. b ≡ self.now) }
    {
        Bytes::copy_of(*self.items.allocator(), self.as_slice())
    }
}

// Whether two texts of one length are the same, where their first N and their last N bytes cover them. It has
// no loop over the bytes and no call, which would cost more than the bytes of most hosts.
fn same_ends<const N: usize>(a: &[u8], b: &[u8]) -> bool
    requires long { N ≤ length a.now }
    requires covered { length a.now ≤ 2 * N }
    requires same { length b.now ≡ length a.now }
    ensures { result ≡ bytes_eq a.now b.now }
{
    let (first, last) = (a.first_chunk::<N>().unwrap(), a.last_chunk::<N>().unwrap());
    last == b.last_chunk::<N>().unwrap() && first == b.first_chunk::<N>().unwrap()
}

impl PartialEq for Bytes {
    ghost eq = { bytes_eq };

    ghost laws = { partial_equiv_from_equiv nat_list_eq_equiv };

    fn eq(&self, other: &Bytes) -> bool {
        let (a, b) = (self.as_slice(), other.as_slice());
        if a.len() != b.len() {
            return false;
        }
        match a.len() {
            4..=8 => same_ends::<4>(a, b),
            9..=16 => same_ends::<8>(a, b),
            _ => a == b,
        }
    }
}

impl Eq for Bytes {
    ghost laws = { nat_list_eq_equiv };
}

impl PartialOrd for Bytes {
    ghost partial_cmp = { λ a b. Some (slice_cmp nat_cmp a b) };

    ghost laws = { texts_po };

    fn partial_cmp(&self, other: &Bytes) -> Option<Ordering> {
        Some(self.cmp(other))
    }
}

impl Ord for Bytes {
    ghost cmp = { slice_cmp nat_cmp };

    ghost total = { nat_list_cmp_total };

    ghost matches_partial_cmp = { λ a b. refl };

    ghost matches_eq = { texts_ties };

    fn cmp(&self, other: &Bytes) -> Ordering {
        self.as_slice().cmp(other.as_slice())
    }
}

impl Hash for Bytes {
    ghost hash_input = { fed.str };

    ghost respects_eq = { Prim.search (hashing, rules) };

    fn hash<H: Hasher>(&self, state: &mut H) {
        state.write(self.as_slice());
        state.write_u8(255);
    }
}
