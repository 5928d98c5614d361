//! Ternary excitation and the two passes by look-ups in tables: definitions and laws. The code is in the crates `growth`, `additions` and `passes`.
#![tactic(auto)]

mod look_ups;

pub use look_ups::LookUps;
use net::Net;

// What the two passes give by look-ups from a stable start: both last vectors and both step counts.
#[derive(Clone, Copy)]
pub struct Passes {
    pub first: [u8; Net::MOST_KEY_NODES],
    pub second: [u8; Net::MOST_KEY_NODES],
    pub first_steps: u8,
    pub second_steps: u8,
}
