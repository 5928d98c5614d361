//! Ternary tables, grown from truth tables. Definitions are those of the crates `ternary` and `lookups`.
#![tactic(auto)]

ghost use Rattle.std.specs.Prelude.{◌≡◌, ◌*◌, ◌^◌, ◌<◌, length};
ghost use Rattle.ternary.specs.TruthTable.{signal_kinds, agree, grow};
ghost use Rattle.lanes.specs.Grid.{cell, set_row};
ghost use Rattle.excitations.specs.Fit.{Fit};
ghost use Rattle.excitations.specs.Excitations.{excitation_lanes};
ghost use Rattle.states.specs.Weights.{key_vertices};
ghost use Rattle.lookups.specs.TernaryTables.{ternary_tables};

use net::Net;
use ternary::Signal;

// The last third of a table, where the last variable is X, from the two before it: row 2 of rows 0 to 2.
fn join(out: &mut [u8], third: usize)
    requires { (0 < third) × (length out.old ≡ signal_kinds * third) }
    ensures { out.new ≡ set_row third 2 (λ i. agree (cell third out.old 0 i) (cell third out.old 1 i)) out.old }
{
    // By places: one slice in three parts, and no fact tells what a `zip` of `iter_mut` wrote.
    for i in 0..third {
        out[2 * third + i] = ternary::agree(out[i], out[third + i]);
    }
}

// A table over n ternary variables from one over n binary ones.
fn grow(table: &[u8], out: &mut [u8], n: u8)
    requires { (length table.now ≡ 2 ^ n) × (length out.old ≡ signal_kinds ^ n) }
    ensures { out.new ≡ grow n table.now }
{
    if n == 0 {
        out[0] = table[0];
        return;
    }
    let half = table.len() / 2;
    let third = out.len() / Signal::KINDS;
    let thirds = 2 * third;
    grow(&table[..half], &mut out[..third], n - 1);
    grow(&table[half..], &mut out[third..thirds], n - 1);
    join(out, third);
}

// The ternary tables of all key nodes, from the rows of their excitations.
pub fn tables<'a>(
    net: Net,
    keys: &'a [u8; Net::MOST_KEY_NODES],
    excitations: &'a [u8; Net::VERTEX_LANES],
) -> [u8; Net::TERNARY_TABLES]
    requires { Fit net × (keys.now ≡ key_vertices net) × (excitations.now ≡ excitation_lanes net) }
    ensures { result ≡ ternary_tables net }
{
    let count = graph::key_count(net);
    let mut rows = [0u8; Net::TERNARY_TABLES];
    // By places: of a row that `chunks_exact_mut` lent, no fact is left after the loop.
    for k in 0..count {
        let from = lane_values::wide(keys[k]) * Net::ASSIGNMENTS;
        let to = from + Net::ASSIGNMENTS;
        let start = k * Net::TERNARY_ASSIGNMENTS;
        let end = start + Net::TERNARY_ASSIGNMENTS;
        grow(
            &excitations[from..to],
            &mut rows[start..end],
            Net::MOST_SIGNALS as u8,
        );
    }
    rows
}
