//! Reading a sheet: the header, then a line for each vertex and each edge, then the rows over the graph.
//! Types, definitions and laws are those of the crate `sheet`.
#![tactic(auto)]

pub mod body;

ghost use Rattle.std.specs.Prelude.{◌≡◌, ◌+◌, ◌*◌, ◌≤◌, length, drop};
ghost use Rattle.sheet.specs.Limits.{ReadColumns, line_bytes};
ghost use Rattle.sheet.specs.Checked.{SoFar};
ghost use Rattle.sheet.specs.Reading.{read_lines, read_in, read_sheet};
ghost use Rattle.sheet.specs.Rules.{header_ok};

use net::Net;
use sheet::{Answer, Line, Reading, Sheet};

// A header is 1, vertices, edges, letters and the edition.
fn header_ok(h: Line) -> bool
    ensures { result ≡ header_ok h }
{
    if h.kind != Line::HEADER {
        return false;
    }
    if h.fifth != Sheet::EDITION {
        return false;
    }
    rules::counts_ok(h.second as usize, h.third as usize, h.fourth as usize)
}

// The lines below the header; reading stops at the first that is refused.
fn read_lines(sheet: &[u8], columns: usize, start: Net, count: usize) -> Reading
    requires { SoFar start 0 × (count ≡ start.vertex_count + start.edge_count) × (line_bytes columns * (1 + count) ≤ length sheet.now) × ReadColumns columns }
    ensures { result ≡ read_lines columns count (drop (line_bytes columns) sheet.now) 0 start }
{
    let width = sheet::line_bytes(columns);
    let mut net = start;
    for j in 0..count {
        let at = width * (1 + j);
        let end = at + width;
        let Some(line) = line_values::read_line(&sheet[at..end], columns) else {
            return sheet_readings::refusal(Answer::BAD_LINE, (j + 2) as u16);
        };
        let Some(entry) = body::decode_line(net, j, line) else {
            return sheet_readings::refusal(body::refusal_of(net, j), (j + 2) as u16);
        };
        net = body::with_entry(net, j, entry);
    }
    sheet_readings::concluded(net)
}

// The record of a sheet with so many columns a field, or the number and place of its first fault.
pub fn read_in(sheet: &[u8], columns: usize) -> Reading
    requires { ReadColumns columns }
    ensures { result ≡ read_in columns sheet.now }
{
    let width = sheet::line_bytes(columns);
    let size = sheet.len();
    if !sheet_readings::whole_lines(size, columns, Sheet::MOST_LINES) {
        return sheet_readings::refusal(Answer::BAD_LENGTH, 0);
    }
    let Some(header) = line_values::read_line(&sheet[0..width], columns) else {
        return sheet_readings::refusal(Answer::BAD_LINE, 1);
    };
    if !header_ok(header) {
        return sheet_readings::refusal(Answer::BAD_HEADER, 1);
    }
    let count = header.second as usize + header.third as usize;
    if size / width != 1 + count {
        return sheet_readings::refusal(Answer::BAD_LINE_COUNT, 0);
    }
    let start = sheet_readings::start_net(
        header.second as u8,
        header.third as u16,
        header.fourth as u8,
    );
    read_lines(sheet, columns, start, count)
}

// A sheet of the width in force.
pub fn read(sheet: &[u8]) -> Reading
    ensures { result ≡ read_sheet sheet.now }
{
    read_in(sheet, Sheet::FIELD_WIDTH)
}
