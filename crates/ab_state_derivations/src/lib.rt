//! What states say is borne out by derivations.
#![tactic(auto)]

pub mod state_laws;
