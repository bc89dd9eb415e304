//! How what a store and statuses stand for goes on, as laws.
ghost use Rattle.pe_changes.specs.StoreSteps.{StoreSteps};
ghost use Rattle.pe_changes.specs.StatusSteps.{StatusSteps};

use pe_laws::history_laws;
use pe_store::same_pairs_are_one;

/// For what a store stands after each kind of event.
pub fn store_steps()
    ensures { StoreSteps }
{
    history_laws();
    same_pairs_are_one();
}

/// For what the statuses stand after each kind of event.
pub fn status_steps()
    ensures { StatusSteps }
{
    history_laws();
}
