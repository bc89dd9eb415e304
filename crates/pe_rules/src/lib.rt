//! What a script means, over the plain list of accepted events: definitions, and the laws that hold of
//! them.
#![tactic(auto)]
