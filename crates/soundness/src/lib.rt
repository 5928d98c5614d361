//! What the verdict, the call for one vertex and the call for the number of key nodes answer: definitions and laws. The code is in the crates `verdict`,
//! `vertex_excitation` and `record_keys`.
#![tactic(auto)]

use sheet::Answer;

// The number of key nodes of a record, 0 under a number: both, as document 01 has them.
#[derive(Clone, Copy)]
pub struct KeyNodes {
    pub answer: Answer,
    pub count: u32,
}
