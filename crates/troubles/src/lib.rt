//! Definitions and laws of troubles, that is fights, and outputs excited to 2, that some stable state has; and the type of a net in which C1 is met. The
//! functions are in the crate `c2_c3`, and for condition C1 in `c1`.
#![tactic(auto)]

mod sound_net;

pub use sound_net::SoundNet;
