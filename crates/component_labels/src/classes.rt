//! Classes of vertices: each vertex has the label of its class, and an edge that counts makes one class of two.
ghost use Rattle.std.specs.Prelude.{◌≡◌, suc, ◌≤◌, length};
ghost use Rattle.ternary.specs.Lists.{table};
ghost use Rattle.net.specs.Limits.{most_vertices};
ghost use Rattle.net.specs.Classes.{relabel, merge};

use net::Net;
use std::array;

fn relabelled(label: u8, new: u8, old: u8) -> u8
    ensures { result ≡ relabel new old label }
{
    if label == old { new } else { label }
}

// The class of v takes the label of u. Each label is stored, changed or not: the loop then has no branch.
pub(crate) fn merge_classes(labels: &mut [u8; Net::VERTEX_PLACES], u: u8, v: u8)
    requires { (length labels.old ≡ suc most_vertices) × (u ≤ most_vertices) × (v ≤ most_vertices) }
    ensures { labels.new ≡ merge u v labels.old }
{
    let new = labels[u as usize];
    let old = labels[v as usize];
    for label in labels.iter_mut() {
        *label = relabelled(*label, new, old);
    }
}

// Each vertex in a class of its own.
pub(crate) fn own_labels() -> [u8; Net::VERTEX_PLACES]
    ensures { result ≡ table (suc most_vertices) (λ v. v) }
{
    array::from_fn(|v| v as u8)
}
