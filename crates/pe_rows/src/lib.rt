//! Worked rows: the output text of whole scripts, from bytes to bytes, as theorems.
#![tactic(auto)]
