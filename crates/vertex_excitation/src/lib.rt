//! The excitation of one vertex in one state, as a call with its numbers. What it answers stands in the crate `soundness`.
#![tactic(auto)]

mod one;

ghost use Rattle.std.specs.Prelude.{◌≡◌};
ghost use Rattle.soundness.specs.Excited.{excited_of};

use net::Net;
use sheet::Answer;

// The excitation of a vertex under an input state and a key state: any numbers whatever.
pub fn excitation(net: Net, input: u32, key: u32, vertex: u32) -> Result<u8, u8>
    ensures { result ≡ excited_of net input key vertex }
{
    if !record::is_record(net) {
        return Err(Answer::BAD_RECORD);
    }
    if !states::is_below(input, net.letter_count as usize) {
        return Err(Answer::BAD_INPUT_STATE);
    }
    if !states::is_below(key, graph::key_count(net)) {
        return Err(Answer::BAD_KEY_STATE);
    }
    if !one::is_storage(net, vertex) {
        return Err(Answer::NO_STORAGE_VERTEX);
    }
    Ok(one::value(net, input, key, vertex as u8))
}
