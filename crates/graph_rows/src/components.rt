// Row 23: the signals of a component.

ghost use Rattle.std.specs.Prelude.{◌≡◌, ◌≤◌, true};
ghost use Rattle.std.proofs.Math.Option.{none};
ghost use Rattle.ternary.specs.Lists.{least_below};
ghost use Rattle.net.specs.Limits.{most_vertices};
ghost use Rattle.net.specs.Graph.{is_storage};
ghost use Rattle.net.specs.SignalTable.{signal_count};
ghost use Rattle.sheet.specs.Checked.{Checked};
ghost use Rattle.sheet.specs.Graph.{over_signals, signal_place};
ghost use Rattle.sheet.specs.Search.{found_of};

use net::{Graph, Net};

// The number of signals of y's component.
fn signal_count(graph: &Graph, y: u8) -> usize
    requires { is_storage graph.now.net y ≡ true }
    ensures { result ≡ signal_count graph.now.net y }
{
    let flags = signals::signal_flags(graph, y);
    flags::count_flags(&flags)
}

// Has the component of vertex y too many signals? It is counted once, at its lowest vertex.
fn over_signals(graph: &Graph, y: u8) -> bool
    requires { (y ≤ most_vertices) × (least_below y (over_signals graph.now.net) ≡ none) }
    ensures { result ≡ over_signals graph.now.net y }
{
    if graph.storage[y as usize] != 1 {
        return false;
    }
    if component_labels::lowest_member(&graph.storage, &graph.labels, y) != y {
        return false;
    }
    Net::MOST_SIGNALS < signal_count(graph, y)
}

// The lowest vertex of a component with too many signals. No `find`: `over_signals` asks that no vertex before is over.
fn signal_place(graph: &Graph) -> Option<u16>
    ensures { result ≡ found_of (signal_place graph.now.net) }
{
    let end = graph.net.vertex_count + 1;
    for y in 0..end {
        if over_signals(graph, y) {
            return Some(y as u16);
        }
    }
    None
}

// Row 23 from the record.
pub(crate) fn signal_row(net: Net) -> Option<u16>
    requires { Checked net }
    ensures { result ≡ found_of (signal_place net) }
{
    signal_place(&component_labels::graph(net))
}
