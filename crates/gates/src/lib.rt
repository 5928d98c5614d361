//! Gate sheets: a net drawn as inverters, NANDs and NORs. What a gate sheet means stands in specs/, the laws of it in proofs/. The functions over it are in the
//! crates `gates_reader` and `gates_text`.
#![tactic(auto)]

ghost use Rattle.std.specs.Prelude.{◌≡◌};
ghost use Rattle.gates.specs.Limits.{gate_limits};

use sheet::Sheet;

// A gate by the numbers of its symbols.
#[derive(Clone, Copy)]
pub enum Gate {
    Inverter(u16),
    Nand(u16, u16),
    Nor(u16, u16),
}

impl Gate {
    // The types of a gate on a sheet: numbers, since a line may hold any; decoded they are the cases above.
    pub const INVERTER: u32 = 1;

    pub const NAND: u32 = 2;

    pub const NOR: u32 = 3;
}

// A header, and a line for each gate.
#[derive(Clone, Copy)]
pub struct GateSheet;

impl GateSheet {
    // The columns of a field.
    pub const COLUMNS: usize = Sheet::FIELD_WIDTH;

    pub const LINE_WIDTH: usize = GateSheet::COLUMNS * Sheet::FIELDS + 1;

    pub const MOST_GATES: usize = 24;

    pub const MOST_LINES: usize = 1 + GateSheet::MOST_GATES;

    pub const MOST_BYTES: usize = GateSheet::LINE_WIDTH * GateSheet::MOST_LINES;
    // The last number of a header.
    pub const EDITION: u32 = 1;
    // The vertices of its net that carry 0 and 1, and the first output, which follows them.
    pub const LOW: u8 = 1;

    pub const HIGH: u8 = 2;

    pub const FIRST_OUTPUT: u8 = 3;
}

// The limits as one value, to hold the constants to the definitions.
#[derive(Clone, Copy)]
pub struct GateLimits {
    pub columns: usize,
    pub line: usize,
    pub gates: usize,
    pub lines: usize,
    pub bytes: usize,
    pub edition: u32,
}

// The code's limits are those of the definitions.
pub fn limits_in_force() -> GateLimits
    ensures { result ≡ gate_limits }
{
    GateLimits {
        columns: GateSheet::COLUMNS,
        line: GateSheet::LINE_WIDTH,
        gates: GateSheet::MOST_GATES,
        lines: GateSheet::MOST_LINES,
        bytes: GateSheet::MOST_BYTES,
        edition: GateSheet::EDITION,
    }
}
