//! Condition C1, read off the rows of the key nodes. Definitions and laws are those of the crates `excitations` and `troubles`.
#![tactic(auto)]

ghost use Rattle.std.specs.Prelude.{◌≡◌, suc, ◌*◌, ◌≤◌, ◌&&◌, eqb, leb, length};
ghost use Rattle.std.specs.List.{list_any};
ghost use Rattle.ternary.specs.Lists.{any_below};
ghost use Rattle.net.specs.Limits.{most_vertices};
ghost use Rattle.net.specs.WellFormed.{place_c1};
ghost use Rattle.net.specs.Tables.{key_flags};
ghost use Rattle.lanes.specs.Lanes.{assignments, lane};
ghost use Rattle.excitations.specs.Fit.{Fit};
ghost use Rattle.excitations.specs.Excitations.{excitation_lanes};
ghost use Rattle.sheet.specs.Search.{found_of};

use net::Net;

// Is some entry of a row 2, 3 or 5? Every entry is looked at: the loop has no branch.
fn row_breaks(row: &[u8]) -> bool
    ensures { result ≡ list_any (leb 2) row.now }
{
    let mut found = false;
    for excitation in row {
        found |= *excitation >= 2;
    }
    found
}

// Is y, with the flag of a key node, ever excited to 2, 3 or 5?
fn breaks(key: u8, excitations: &[u8; Net::VERTEX_LANES], y: usize) -> bool
    requires { y ≤ most_vertices }
    ensures { result ≡ (eqb key 1 && any_below assignments (λ w. leb 2 (lane excitations.now y w))) }
{
    let from = y * Net::ASSIGNMENTS;
    key == 1 && row_breaks(&excitations[from..from + Net::ASSIGNMENTS])
}

// The lowest key vertex that is ever excited to 2, 3 or 5, by the tables of flags and of excitations.
fn lowest_in_rows<'a>(
    net: Net,
    keys: &'a [u8; Net::VERTEX_PLACES],
    excitations: &'a [u8; Net::VERTEX_LANES],
) -> Option<u16>
    requires { Fit net × (keys.now ≡ key_flags net) × (excitations.now ≡ excitation_lanes net) }
    ensures { result ≡ found_of (place_c1 net) }
{
    let end = net.vertex_count + 1;
    (0..end)
        .find(|y| breaks(keys[*y as usize], excitations, *y as usize))
        .map(|y| y as u16)
}

// The lowest vertex that breaks C1. The table of excitations, which tells it, is left to the caller. Of any fit net: the value for a sound one is made by what
// this answers.
pub fn lowest_break<'a>(net: Net, excitations: &'a mut [u8; Net::VERTEX_LANES]) -> Option<u16>
    requires { Fit net × (length excitations.old ≡ suc most_vertices * assignments) }
    ensures { (result ≡ found_of (place_c1 net)) × (excitations.new ≡ excitation_lanes net) }
{
    vertex_rows::fill(net, excitations);
    let storage = graph::storage_flags(net);
    let keys = graph::key_flags(net, &storage);
    lowest_in_rows(net, &keys, excitations)
}
