//! The pairs of a map from features to allowlists.
ghost use Rattle.std.specs.Prelude.{◌≡◌, Some, OnOk, OnErr, if◌then◌else◌};
ghost use Rattle.std.specs.Option.{option_copied};
ghost use Rattle.std.specs.List.{position};
ghost use Rattle.pe_features.specs.declared.feature.Feature.{Feature};
ghost use Rattle.pe_features.specs.Features.{same_feature};
ghost use Rattle.pe_allowlist.specs.Lists.{lists_of, is_of_feature, NoFeatureTwice};

use crate::allowlist::Allowlist;
use pe_features::Feature;
use std::alloc::AllocError;

/// The allowlist of the feature; None where no pair has it.
#[tactic(auto, unfolding(crate::specs::Lists::lists_of))]
pub(crate) fn find_list(rows: &[(Feature, Allowlist)], feature: Feature) -> Option<&Allowlist>
    ensures { option_copied result ≡ lists_of rows.now feature }
{
    let row = rows.iter().find(|row| row.0.index() == feature.index())?;
    Some(&row.1)
}

/// The place of the first pair of the feature; None where no pair has it.
fn place_of(rows: &[(Feature, Allowlist)], feature: Feature) -> Option<usize>
    ensures { result ≡ position (is_of_feature feature) rows.now }
{
    rows.iter().position(|row| row.0.index() == feature.index())
}

/// Gives the feature this list, in place of an earlier one.
pub(crate) fn put_list(
    rows: &mut Vec<(Feature, Allowlist)>,
    feature: Feature,
    list: Allowlist,
) -> Result<(), AllocError>
    ensures put { OnOk result ((f : Feature)
        → lists_of rows.new.items f ≡ (if same_feature feature f then Some list else lists_of rows.old.items f)) }
    ensures wanting { OnErr result (rows.new.items ≡ rows.old.items) }
    ensures once { NoFeatureTwice rows.old.items → NoFeatureTwice rows.new.items }
{
    match place_of(rows, feature) {
        Some(place) => {
            rows[place] = (feature, list);
            Ok(())
        }
        None => {
            rows.push((feature, list))?;
            Ok(())
        }
    }
}
