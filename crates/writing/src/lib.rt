//! What settling writes: a vector's bytes, and a job's answer.
#![tactic(auto)]

ghost use Rattle.std.specs.Prelude.{◌≡◌, [], ◌∷◌, ◌++◌, ◌≤◌, length, take, drop};
ghost use Rattle.net.specs.Limits.{most_key_nodes};
ghost use Rattle.settlements.specs.Batch.{answer_width};

use net::Net;
use settlements::Settling;

// The first h bytes of a vector to the front of a buffer, and nothing beyond.
pub fn write<'a, 'b>(buffer: &'a mut [u8], vector: &'b [u8; Net::MOST_KEY_NODES], h: usize)
    requires { (h ≤ most_key_nodes) × (h ≤ length buffer.old) }
    ensures { buffer.new ≡ take h vector.now ++ drop h buffer.old }
{
    buffer[..h].copy_from_slice(&vector[..h]);
}

// A job's number and its step counts.
pub fn write_answer(bytes: &mut [u8], answer: Settling)
    requires { length bytes.old ≡ answer_width }
    ensures { bytes.new ≡ answer.number ∷ answer.first_steps ∷ answer.second_steps ∷ [] }
{
    bytes[0] = answer.number;
    bytes[1] = answer.first_steps;
    bytes[2] = answer.second_steps;
}
