//! What each signal adds to the index of each key node's ternary table. Definitions and laws are those of the crate `lookups`.
#![tactic(auto)]

ghost use Rattle.std.specs.Prelude.{◌≡◌, ◌*◌, ◌^◌, ◌/◌, ◌%◌, ◌<◌, length, get_or};
ghost use Rattle.ternary.specs.TruthTable.{signal_kinds};
ghost use Rattle.net.specs.Limits.{most_key_nodes, most_signals};
ghost use Rattle.lanes.specs.Grid.{set_column};
ghost use Rattle.states.specs.Weights.{variables, Bounded};
ghost use Rattle.lookups.specs.Additions as spec;

use net::Net;
use states::Tables;
use ternary::Signal;

// Column k: what each variable and digit adds by these weights.
fn addition_column<'a, 'b>(sums: &'a mut [u16], k: usize, weights: &'b [u16; Net::VARIABLES])
    requires { (length sums.old ≡ variables * signal_kinds * most_key_nodes) × (k < most_key_nodes) × Bounded (signal_kinds ^ most_signals) weights.now }
    ensures { sums.new ≡ set_column most_key_nodes k (λ r. r % signal_kinds * get_or weights.now (r / signal_kinds) 0) sums.old }
{
    for r in 0..Net::VARIABLES * Signal::KINDS {
        sums[r * Net::MOST_KEY_NODES + k] = (r % Signal::KINDS) as u16 * weights[r / Signal::KINDS];
    }
}

// For each variable and digit, what it adds for each key node.
pub fn additions(tables: &Tables) -> [u16; Net::ADDITIONS]
    ensures { result ≡ spec.additions tables.now.graph.net }
{
    let mut sums = [0u16; Net::ADDITIONS];
    let count = graph::key_count(tables.graph.net);
    for k in 0..count {
        let list = weights::weights_in(tables, tables.keys[k], Signal::KINDS as u16);
        addition_column(&mut sums, k, &list);
    }
    sums
}
