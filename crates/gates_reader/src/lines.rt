//! The lines of a gate sheet: which values they may have, and the gate that a line gives.

ghost use Rattle.std.specs.Prelude.{◌≡◌, ◌&&◌, ◌+◌, ◌/◌, ◌<◌, eqb};
ghost use Rattle.net.specs.Symbols.{decode, symbol_bound, within};
ghost use Rattle.gates.specs.Limits.{gate_line_bytes};
ghost use Rattle.gates.specs.Gates.{high, first_output};
ghost use Rattle.gates.specs.GateRows.{gate_symbol, gate_header_ok, line_gate, gate_line_ok};
ghost use Rattle.gates.specs.Building.{decode_gate};

use gates::{Gate, GateSheet};
use net::{Net, Symbol};
use sheet::Line;

// A header is 6, gates, letters, 0 and the edition; and there is a line for each gate.
pub(crate) fn first_line_ok(h: Line, size: usize) -> bool
    ensures { result ≡ (gate_header_ok h && eqb (size / gate_line_bytes) (1 + h.second)) }
{
    if h.kind != Line::GATES {
        return false;
    }
    if h.second == 0 {
        return false;
    }
    let gates = h.second as usize;
    if GateSheet::MOST_GATES < gates {
        return false;
    }
    if Net::MOST_LETTERS < h.third as usize {
        return false;
    }
    if h.fourth != 0 {
        return false;
    }
    if h.fifth != GateSheet::EDITION {
        return false;
    }
    size / GateSheet::LINE_WIDTH == 1 + gates
}

// Is v the output of one of so many gates?
fn is_output(gates: usize, v: u8) -> bool
    ensures { result ≡ within first_output (high + gates) v }
{
    if v < GateSheet::FIRST_OUTPUT {
        return false;
    }
    let g = (v - GateSheet::FIRST_OUTPUT) as usize;
    g < gates
}

// A gate's symbol is a constant, a letter or an output.
fn symbol_ok(gates: usize, letters: u8, s: u32) -> bool
    ensures { result ≡ gate_symbol gates letters (decode s) }
{
    if (Symbol::LAST_VERTEX as u32) < s {
        return false;
    }
    match Symbol::from(s as u16) {
        Symbol::Constant(_) => true,
        Symbol::Letter(j) => j <= letters,
        Symbol::Vertex(v) => is_output(gates, v),
        Symbol::Unknown => false,
    }
}

// The line of gate g, counted from 0, is 7, type, the output's symbol, symbol and second symbol; an inverter has no second symbol.
fn gate_line_ok(gates: usize, letters: u8, g: usize, v: Line) -> bool
    ensures { result ≡ gate_line_ok gates letters g v }
{
    if v.kind != Line::GATE {
        return false;
    }
    if v.second < Gate::INVERTER {
        return false;
    }
    if Gate::NOR < v.second {
        return false;
    }
    let first = Symbol::VERTICES as u32 + GateSheet::FIRST_OUTPUT as u32;
    if v.third < first {
        return false;
    }
    let place = (v.third - first) as usize;
    if place != g {
        return false;
    }
    if !symbol_ok(gates, letters, v.fourth) {
        return false;
    }
    if v.second == Gate::INVERTER {
        return v.fifth == 0;
    }
    symbol_ok(gates, letters, v.fifth)
}

// The gate of a line. No `TryFrom`: whoever calls has tested the line, and the error could not come.
fn gate_of(v: Line) -> Gate
    requires { (v.fourth < symbol_bound) × (v.fifth < symbol_bound) }
    ensures { result ≡ line_gate v }
{
    let kind = v.second;
    match kind {
        0..=Gate::INVERTER => Gate::Inverter(v.fourth as u16),
        Gate::NAND => Gate::Nand(v.fourth as u16, v.fifth as u16),
        _ => Gate::Nor(v.fourth as u16, v.fifth as u16),
    }
}

// What the line of gate g, counted from 0, is decoded to.
pub(crate) fn decode_gate(gates: usize, letters: u8, g: usize, v: Line) -> Option<Gate>
    ensures { result ≡ decode_gate gates letters g v }
{
    if !gate_line_ok(gates, letters, g, v) {
        return None;
    }
    Some(gate_of(v))
}
