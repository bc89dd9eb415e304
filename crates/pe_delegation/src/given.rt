//! The numbers of the messages that were ever posted.
ghost use Rattle.pe_delegation.specs.Kept.{IsRising, IsPlaceOf};

use pe_base::MessageNo;

// The place of the number among those that were given, if it is one.
pub(crate) fn place_of(given: &[MessageNo], no: MessageNo) -> Option<usize>
    requires { IsRising given.now }
    ensures { IsPlaceOf given.now no result }
{
    match given.binary_search(&no) {
        Ok(place) => Some(place),
        Err(_) => None,
    }
}
