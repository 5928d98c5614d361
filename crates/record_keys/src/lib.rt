//! The number of key nodes of any record, as a call with its number: whoever lends buffers for settling knows by it how long they must be. What it answers
//! stands in the crate `soundness`.
#![tactic(auto)]

ghost use Rattle.std.specs.Prelude.{◌≡◌};
ghost use Rattle.soundness.specs.KeyNodes.{key_nodes_of};

use net::Net;
use sheet::Answer;
use soundness::KeyNodes;

// h, or 41 for a record that no accepted sheet gives.
pub fn key_nodes(net: Net) -> KeyNodes
    ensures { result ≡ key_nodes_of net }
{
    if !record::is_record(net) {
        return KeyNodes {
            answer: Answer {
                number: Answer::BAD_RECORD,
                place: 0,
            },
            count: 0,
        };
    }
    let h = graph::key_count(net);
    KeyNodes {
        answer: Answer {
            number: 0,
            place: 0,
        },
        count: h as u32,
    }
}
