//! Definitions and laws of the excitations of all storage vertices at every assignment of their components' signals, in tables of lanes, and what the walks
//! that find them read. Conditions of edges give connections to input vertices, and these give excitations. The functions are in the crates `connections`
//! and `vertex_rows`.
#![tactic(auto)]

mod wiring;

pub use wiring::Wiring;
