//! What look-ups read, as one value.
ghost use Rattle.std.specs.Prelude.{◌≤◌};
ghost use Rattle.net.specs.Limits.{most_key_nodes};
ghost use Rattle.lookups.specs.LookUps.{Indexed};

use net::Net;

// The ternary tables of the key nodes, what each signal adds to an index into them, and how many key nodes there are.
#[derive(Clone, Copy)]
pub struct LookUps<'a> {
    pub tables: &'a [u8; Net::TERNARY_TABLES],
    pub additions: &'a [u16; Net::ADDITIONS],
    pub count: usize,
    ghost few: { count ≤ most_key_nodes },
    ghost indexed: { Indexed additions.now },
}
