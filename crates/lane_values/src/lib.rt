//! What loops over rows of lanes do with one lane, without a branch. Definitions and laws are those of the crate `lanes`.
#![tactic(auto)]

ghost use Rattle.std.specs.Prelude.{◌≡◌, ◌<◌};
ghost use Rattle.lanes.specs.Lanes as spec;

// By a bit, one of two values.
#[tactic(auto, unfolding(lanes::specs::Lanes::chosen))]
pub fn chosen(low: u8, high: u8, bit: u8) -> u8
    ensures { result ≡ spec.chosen low high bit }
{
    if bit == 1 { high } else { low }
}

// A byte as an index: a list's entry has no bound that a proof knows, and what this gives has one.
pub fn wide(x: u8) -> usize
    ensures { (result ≡ x) × (result < spec.assignments) }
{
    x as usize
}
