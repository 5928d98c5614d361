//! What settling and a batch answer and write: definitions and laws. The code is in the crates `writing`, `job_tests`, `batch_jobs` and `settling`.
#![tactic(auto)]

// What settling returns: a number with its place, and the step counts of both passes (0 under a number), side by side as document 01 has them.
#[derive(Clone, Copy)]
pub struct Settling {
    pub number: u8,
    pub place: u16,
    pub first_steps: u8,
    pub second_steps: u8,
}

impl Settling {
    // What a job of a batch writes: r and t, of a byte for each key node, and its number with two step counts.
    pub const VECTORS: usize = 2;

    pub const ANSWER_BYTES: usize = 3;
}
