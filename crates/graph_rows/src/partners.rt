// Row 21: each edge of a primed form needs a partner of its own. Edges are told by their numbers.

ghost use Rattle.std.specs.Prelude.{◌≡◌, ◌+◌, ◌≤◌, ◌<◌, ltb, get_or};
ghost use Rattle.net.specs.Limits.{most_edges};
ghost use Rattle.sheet.specs.Checked.{Checked};
ghost use Rattle.sheet.specs.EdgeNumbers.{times_among, lacks_by};
ghost use Rattle.sheet.specs.Graph.{partner_place};
ghost use Rattle.sheet.specs.Search.{found_of};

use crate::edge_numbers::{FORMS, edge_numbers, times_among};
use net::Net;

// Do the edges of edge i's number, up to its line, exceed those of its partners' number on the whole sheet?
fn exceeds_partners(numbers: &[u32; Net::MOST_EDGES], count: usize, i: usize, partner: u32) -> bool
    requires { (i < count) × (count ≤ most_edges) }
    ensures { result ≡ ltb (times_among numbers.now count partner) (times_among numbers.now (i + 1) (get_or numbers.now i 0)) }
{
    let partners = times_among(numbers, count, partner);
    let own = times_among(numbers, i + 1, numbers[i]);
    partners < own
}

// Is edge i of a primed form that exceeds its partners? The form is its number's last digit; partners of form 2 have form 1, which is 1 less, and those of
// form 3 have form 0, which is 3 less.
fn lacks_partner(numbers: &[u32; Net::MOST_EDGES], count: usize, i: usize) -> bool
    requires { (i < count) × (count ≤ most_edges) }
    ensures { result ≡ lacks_by numbers.now count i }
{
    let number = numbers[i];
    let form = number % FORMS;
    match form {
        2 => exceeds_partners(numbers, count, i, number - 1),
        3 => exceeds_partners(numbers, count, i, number - 3),
        _ => false,
    }
}

// The line of the first edge that exceeds its partners.
pub(crate) fn partner_place(net: Net) -> Option<u16>
    requires { Checked net }
    ensures { result ≡ found_of (partner_place net) }
{
    let numbers = edge_numbers(net);
    let count = net.edge_count as usize;
    let above = net.vertex_count as u16 + 2;
    for i in 0..count {
        if lacks_partner(&numbers, count, i) {
            return Some(above + i as u16);
        }
    }
    None
}
