//! The numbers that were given, each with that of the pair which the status showed.
ghost use Rattle.std.specs.Prelude.{◌≡◌};
ghost use Rattle.pe_status.specs.Registry.{AreRising};
ghost use Rattle.pe_status.specs.Kept.{numbers, pair_given};

/// A status that was registered: its number, and that of its pair.
#[derive(Clone, Copy)]
pub(crate) struct Given {
    pub no: u32,
    pub pair: u64,
}

// The number of the pair of the status with this number, if there was one.
pub(crate) fn pair_given(given: &[Given], no: u32) -> Option<u64>
    requires { AreRising (numbers given.now) }
    ensures { result ≡ pair_given given.now no }
{
    match given.binary_search_by_key(&no, |one| one.no) {
        Ok(at) => Some(given[at].pair),
        Err(_) => None,
    }
}
