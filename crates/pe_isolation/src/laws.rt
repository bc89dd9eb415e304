//! That pages are isolated, as laws.
ghost use Rattle.pe_isolation.specs.IsolationLaws.{IsolationLaws};

use pe_laws::history_laws;

/// What a page is told with the inputs, uses, posts, deliveries and history actions of the other pages,
/// it is told without them.
pub fn isolation_laws()
    ensures { IsolationLaws }
{
    history_laws();
}
