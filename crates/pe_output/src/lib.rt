//! The output text of a script, as a definition.
#![tactic(auto)]
