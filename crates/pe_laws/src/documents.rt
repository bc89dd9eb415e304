//! Laws of documents: what was there before an event, and what an event leaves of it.
ghost use Rattle.pe_laws.specs.AttributesLaws.{AttributesLaws};
ghost use Rattle.pe_laws.specs.MakingLaws.{MakingLaws};
ghost use Rattle.pe_laws.specs.EmbeddersLaws.{EmbeddersLaws};
ghost use Rattle.pe_laws.specs.CurrentLaws.{CurrentLaws};
ghost use Rattle.pe_laws.specs.OriginsLaws.{OriginsLaws};
ghost use Rattle.pe_laws.specs.TreeLaws.{TreeLaws};
ghost use Rattle.pe_laws.specs.DenialsLaws.{DenialsLaws};

use pe_policy::denials_are_by_value;

/// What holds of the attributes of frames.
pub fn attributes_laws()
    ensures { AttributesLaws }
{}

/// What holds of the making of documents.
pub fn making_laws()
    ensures { MakingLaws }
{}

/// What holds of chains of embedders.
pub fn embedders_laws()
    ensures { EmbeddersLaws }
{}

/// What holds of current documents and live frames.
pub fn current_laws()
    ensures { CurrentLaws }
{}

/// What holds of the tree of live frames.
pub fn tree_laws()
    ensures { TreeLaws }
{}

/// What holds of origins, sandbox flags and secure contexts.
pub fn origins_laws()
    ensures { OriginsLaws }
{}

/// What holds of the policies of documents, and of what they deny.
pub fn denials_laws()
    ensures { DenialsLaws }
{
    denials_are_by_value();
}
