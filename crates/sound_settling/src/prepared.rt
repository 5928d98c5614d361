//! What a call prepares once, however many jobs it settles.
ghost use Rattle.std.specs.Prelude.{◌≡◌};
ghost use Rattle.excitations.specs.Fit.{Fit};
ghost use Rattle.excitations.specs.Excitations.{excitation_lanes};
ghost use Rattle.lookups.specs.TernaryTables.{ternary_tables};
ghost use Rattle.lookups.specs.Additions as spec;

use net::Net;

// The ternary tables of the key nodes.
pub(crate) fn ternary_tables(
    net: Net,
    excitations: &[u8; Net::VERTEX_LANES],
) -> [u8; Net::TERNARY_TABLES]
    requires { Fit net × (excitations.now ≡ excitation_lanes net) }
    ensures { result ≡ ternary_tables net }
{
    let keys = key_vertices::key_vertices(net);
    growth::tables(net, &keys, excitations)
}

// What each signal adds to an index into them.
pub(crate) fn additions(net: Net) -> [u16; Net::ADDITIONS]
    requires { Fit net }
    ensures { result ≡ spec.additions net }
{
    additions::additions(&key_vertices::tables(net))
}
