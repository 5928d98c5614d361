//! The rows over the whole graph: pairs (21), key nodes (22) and the signals of a component (23).
//! Types, definitions and laws are those of the crate `sheet`.
#![tactic(auto)]

pub mod components;
pub mod edge_numbers;
pub mod key_nodes;
pub mod partners;

ghost use Rattle.std.specs.Prelude.{◌≡◌};
ghost use Rattle.sheet.specs.Rows.{first_row, answered};
ghost use Rattle.sheet.specs.Checked.{Checked};
ghost use Rattle.sheet.specs.Graph.{graph_rows};

use net::Net;
use sheet::Answer;

// The first of the rows over the graph.
pub fn graph_answer(net: Net) -> Answer
    requires { Checked net }
    ensures { result ≡ answered (first_row (graph_rows net)) }
{
    let partner = partners::partner_place(net);
    if let Some(place) = partner {
        return Answer {
            number: Answer::NO_PARTNER,
            place,
        };
    }
    let key = key_nodes::key_row(net);
    if let Some(place) = key {
        return Answer {
            number: Answer::MANY_KEY_NODES,
            place,
        };
    }
    let signal = components::signal_row(net);
    if let Some(place) = signal {
        return Answer {
            number: Answer::MANY_SIGNALS,
            place,
        };
    }
    Answer {
        number: 0,
        place: 0,
    }
}
