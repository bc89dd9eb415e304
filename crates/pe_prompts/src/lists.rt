//! Lists under numbers.
ghost use Rattle.std.specs.Prelude.{◌≡◌, ℕ, false, nat_eq, ◌++◌, [], ◌∷◌, OnOk, OnErr};
ghost use Rattle.pe_prompts.specs.Lists.{listed};

use indexmap::IndexMap;
use std::alloc::{AllocError, Global};

// Puts an item behind the list of the number. `AllocError` where memory wants.
pub(crate) fn put<T: Copy>(
    lists: &mut IndexMap<u32, Vec<T>>,
    alloc: Global,
    number: u32,
    item: T,
) -> Result<(), AllocError>
    ensures here { OnOk result (listed lists.new number ≡ listed lists.old number ++ item ∷ []) }
    ensures others { (n : ℕ) → nat_eq number n ≡ false → listed lists.new n ≡ listed lists.old n }
    ensures err { OnErr result (listed lists.new number ≡ listed lists.old number) }
{
    if let Some(list) = lists.get_mut(&number) {
        list.push(item)?;
        return Ok(());
    }
    let mut list = Vec::new(alloc);
    list.push(item)?;
    lists.insert(number, list)?;
    Ok(())
}

// Takes the list of the number.
pub(crate) fn take<T: Copy>(lists: &mut IndexMap<u32, Vec<T>>, alloc: Global, number: u32) -> Vec<T>
    ensures list { result.items ≡ listed lists.old number }
    ensures others { (n : ℕ) → nat_eq number n ≡ false → listed lists.new n ≡ listed lists.old n }
{
    match lists.swap_remove(&number) {
        Some(list) => list,
        None => Vec::new(alloc),
    }
}
