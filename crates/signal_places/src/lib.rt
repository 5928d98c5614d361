//! The place of each symbol among the signals of each component. Definitions and laws are those of the crate `excitations`.
#![tactic(auto)]

ghost use Rattle.std.specs.Prelude.{◌≡◌, true, ℕ, suc, ◌≤◌, ◌<◌, ◌*◌, eqb, length, get_or};
ghost use Rattle.ternary.specs.Lists.{count_below};
ghost use Rattle.net.specs.Limits.{most_vertices};
ghost use Rattle.net.specs.Symbols.{symbol_bound};
ghost use Rattle.net.specs.Graph.{is_storage};
ghost use Rattle.net.specs.SignalTable.{signal_index};
ghost use Rattle.lanes.specs.Grid.{cell, set_row};
ghost use Rattle.excitations.specs.Conditions.{signal_places};

use net::{Graph, Net, Symbol};

// Row y: for each symbol how many flags stand before its own.
fn place_row<'a>(places: &'a mut [u8; Net::SYMBOL_PLACES], y: usize, flags: &'a [u8; Symbol::BOUND])
    requires { (length places.old ≡ suc most_vertices * symbol_bound) × (y ≤ most_vertices) }
    ensures { places.new ≡ set_row symbol_bound y (λ s. count_below s (λ t. eqb (get_or flags.now t 0) 1)) places.old }
{
    let from = y * Symbol::BOUND;
    let mut count: u8 = 0;
    for (s, flag) in flags.iter().enumerate() {
        places[from + s] = count;
        if *flag == 1 {
            count += 1;
        }
    }
}

// Row y becomes row x.
fn copy_row(places: &mut [u8; Net::SYMBOL_PLACES], x: usize, y: usize)
    requires { (length places.old ≡ suc most_vertices * symbol_bound) × (x ≤ most_vertices) × (y ≤ most_vertices) }
    ensures { places.new ≡ set_row symbol_bound y (cell symbol_bound places.old x) places.old }
{
    let from = x * Symbol::BOUND;
    let to = y * Symbol::BOUND;
    places.copy_within(from..from + Symbol::BOUND, to);
}

// Row y of a storage vertex, where the rows of those below it are stored. A component has one row, which is worked out once.
fn store_row<'a, 'b>(places: &'a mut [u8; Net::SYMBOL_PLACES], graph: &'b Graph, y: u8)
    requires { (is_storage graph.now.net y ≡ true) × (y ≤ most_vertices)
        × (length places.old ≡ suc most_vertices * symbol_bound)
        × ((x s : ℕ) → is_storage graph.now.net x ≡ true → x < y → s < symbol_bound → cell symbol_bound places.old x s ≡ signal_index graph.now.net x s) }
    ensures { places.new ≡ set_row symbol_bound y (signal_index graph.now.net y) places.old }
{
    let x = component_labels::lowest_member(&graph.storage, &graph.labels, y);
    if x != y {
        copy_row(places, x as usize, y as usize);
        return;
    }
    let flags = signals::signal_flags(graph, y);
    place_row(places, y as usize, &flags);
}

// The place of each symbol among the signals of each storage vertex's component.
pub fn signal_places(graph: &Graph) -> [u8; Net::SYMBOL_PLACES]
    ensures { result ≡ signal_places graph.now.net }
{
    let mut places = [0u8; Net::SYMBOL_PLACES];
    for y in 0..Net::VERTEX_PLACES {
        if graph.storage[y] == 1 {
            store_row(&mut places, graph, y as u8);
        }
    }
    places
}
