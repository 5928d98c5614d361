//! Reading a gate sheet: the header, then a line for each gate, then the key nodes. Types, definitions and laws are those of the crates `gates` and `sheet`.
#![tactic(auto)]

mod building;
mod lines;

ghost use Rattle.std.specs.Prelude.{◌≡◌, true};
ghost use Rattle.gates.specs.GateRows.{gate_count, letter_count, first_line_ok, read_gates};
ghost use Rattle.gates.specs.Building.{gate_rest};

use gates::GateSheet;
use sheet::{Answer, Reading};

// The lines of the gates; reading stops at the first that is refused.
fn read_lines(sheet: &[u8], gates: usize, letters: u8) -> Reading
    requires { (first_line_ok sheet.now ≡ true) × (gates ≡ gate_count sheet.now) × (letters ≡ letter_count sheet.now) }
    ensures { result ≡ gate_rest sheet.now gates 0 }
{
    let mut net = building::outputs(gates, letters);
    for g in 0..gates {
        let at = GateSheet::LINE_WIDTH * (1 + g);
        let end = at + GateSheet::LINE_WIDTH;
        let Some(line) = line_values::read_line(&sheet[at..end], GateSheet::COLUMNS) else {
            return sheet_readings::refusal(Answer::BAD_LINE, (g + 2) as u16);
        };
        let Some(gate) = lines::decode_gate(gates, letters, g, line) else {
            return sheet_readings::refusal(Answer::BAD_GATE_LINE, (g + 2) as u16);
        };
        let output = GateSheet::FIRST_OUTPUT as usize + g;
        net = building::add_gate(net, output as u8, gate);
    }
    sheet_readings::concluded(net)
}

// The record of a gate sheet, or the number and place of its first fault.
pub fn read(sheet: &[u8]) -> Reading
    ensures { result ≡ read_gates sheet.now }
{
    let size = sheet.len();
    if !sheet_readings::whole_lines(size, GateSheet::COLUMNS, GateSheet::MOST_LINES) {
        return sheet_readings::refusal(Answer::BAD_LENGTH, 0);
    }
    let first = GateSheet::LINE_WIDTH;
    let Some(header) = line_values::read_line(&sheet[..first], GateSheet::COLUMNS) else {
        return sheet_readings::refusal(Answer::BAD_LINE, 1);
    };
    if !lines::first_line_ok(header, size) {
        return sheet_readings::refusal(Answer::BAD_GATE_LINE, 1);
    }
    read_lines(sheet, header.second as usize, header.third as u8)
}
