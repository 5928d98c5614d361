// Row 22: the key nodes of a net.

ghost use Rattle.std.specs.Prelude.{◌≡◌, ◌≤◌, ◌<◌};
ghost use Rattle.net.specs.Limits.{most_vertices};
ghost use Rattle.net.specs.Tables.{key_flags};
ghost use Rattle.sheet.specs.Checked.{Checked};
ghost use Rattle.sheet.specs.Graph.{key_place};
ghost use Rattle.sheet.specs.Search.{found_of};

use net::Net;

// The vertex of the first key node above the limit.
fn key_place(net: Net, keys: &[u8; Net::VERTEX_PLACES]) -> Option<u16>
    requires { (net.vertex_count ≤ most_vertices) × (keys.now ≡ key_flags net) }
    ensures { result ≡ found_of (key_place net) }
{
    let last = net.vertex_count as usize;
    let mut found: usize = 0;
    for (v, key) in keys[..=last].iter().enumerate() {
        found += usize::from(*key);
        if Net::MOST_KEY_NODES < found {
            return Some(v as u16);
        }
    }
    None
}

// Row 22 from the record.
pub(crate) fn key_row(net: Net) -> Option<u16>
    requires { Checked net }
    ensures { result ≡ found_of (key_place net) }
{
    let storage = graph::storage_flags(net);
    let keys = graph::key_flags(net, &storage);
    key_place(net, &keys)
}
