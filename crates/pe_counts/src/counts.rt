//! Counts of things by pages.
ghost use Rattle.std.specs.Prelude.{◌≡◌, ◌+◌, ◌-◌, ◌<◌, ◌^◌, ◌==◌, OnOk, OnErr, if◌then◌else◌};
ghost use Rattle.pe_counts.specs.Counts.{count_of};

use indexmap::IndexMap;
use pe_base::FrameNo;
use std::alloc::{AllocError, Global};
use std::marker::Model;

/// How many things each page has. A page that has none has no entry, and its place serves the next that has
/// some, so the memory is that of the most pages that had some at once. A call costs a look-up by hash or two,
/// however many pages have some. Contracts see it as the list of pages with their counts, in no order.
#[derive(Drop)]
pub struct PageCounts {
    // The count of each page that has some. The order of the map is never seen.
    counts: IndexMap<u32, u32>,
}

impl Model for PageCounts {
    ghost use Rattle.std.specs.Prelude.{List, ℕ};

    ghost Value = { List (ℕ × ℕ) };

    ghost view = { λ c. c.counts.entries };
}

impl PageCounts {
    /// No page has any.
    pub fn new(alloc: Global) -> PageCounts
        ensures { (p : _) → count_of result p ≡ 0 }
    {
        PageCounts {
            counts: IndexMap::new(alloc),
        }
    }

    /// How many the page has.
    pub fn get(&self, page: FrameNo) -> u32
        ensures { result ≡ count_of self.now page }
    {
        self.counts.get(&page.get()).copied().unwrap_or(0)
    }

    /// The page has one more. `AllocError` where memory wants: then no count changed.
    pub fn add(&mut self, page: FrameNo) -> Result<(), AllocError>
        requires { count_of self.old page + 1 < 2 ^ 32 }
        ensures ok { OnOk result ((p : _) → count_of self.new p ≡ if page == p then count_of self.old p + 1 else count_of self.old p) }
        ensures err { OnErr result ((p : _) → count_of self.new p ≡ count_of self.old p) }
    {
        if let Some(count) = self.counts.get_mut(&page.get()) {
            *count += 1;
            return Ok(());
        }
        self.counts.insert(page.get(), 1)?;
        Ok(())
    }

    /// The page has one less; one that had none has none.
    pub fn take(&mut self, page: FrameNo)
        ensures { (p : _) → count_of self.new p ≡ if page == p then count_of self.old p - 1 else count_of self.old p }
    {
        let Some(count) = self.counts.get_mut(&page.get()) else {
            return;
        };
        if *count > 1 {
            *count -= 1;
        } else {
            self.counts.swap_remove(&page.get());
        }
    }
}
