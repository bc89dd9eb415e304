//! Laws of what is stored, of the changes that time brings, and of prompts.
ghost use Rattle.pe_laws.specs.SettingsLaws.{SettingsLaws};
ghost use Rattle.pe_laws.specs.EntriesLaws.{EntriesLaws};
ghost use Rattle.pe_laws.specs.PermissionStateLaws.{PermissionStateLaws};
ghost use Rattle.pe_laws.specs.ChangesLaws.{ChangesLaws};
ghost use Rattle.pe_laws.specs.PromptsLaws.{PromptsLaws};

use pe_store::same_pairs_are_one;

/// What holds of the settings of a pair of feature and key.
pub fn settings_laws()
    ensures { SettingsLaws }
{
    same_pairs_are_one();
}

/// What holds of the entries of the store, and of how many there are.
pub fn entries_laws()
    ensures { EntriesLaws }
{
    same_pairs_are_one();
}

/// What holds of permission states, and of those of documents that were there before a step.
pub fn permission_state_laws()
    ensures { PermissionStateLaws }
{
    same_pairs_are_one();
}

/// What holds of the changes that the passing of time brings.
pub fn changes_laws()
    ensures { ChangesLaws }
{
    same_pairs_are_one();
}

/// What holds of prompts, and of those of a page that are pending.
pub fn prompts_laws()
    ensures { PromptsLaws }
{
    same_pairs_are_one();
}
