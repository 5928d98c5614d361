//! The lines of a record, with so many columns a field, each to a lent part of just its size. Definitions and laws are those of the crates `sheet`
//! and `writer`.

ghost use Rattle.std.specs.Prelude.{◌≡◌, ◌++◌, ◌+◌, ◌*◌, ◌≤◌, ◌<◌, length, take};
ghost use Rattle.net.specs.Limits.{most_vertices};
ghost use Rattle.sheet.specs.Limits.{most_columns, line_bytes};
ghost use Rattle.sheet.specs.Writing.{header_line, vertex_line, vertex_lines, edge_lines, write_in};
ghost use Rattle.writer.specs.Fronts.{Sized, body_line};

use net::{Net, Vertex};
use sheet::{Line, Sheet};

// No `From`, since it is the line of a whole record.
fn header_line(net: Net) -> Line
    ensures { result ≡ header_line net }
{
    Line {
        kind: Line::HEADER,
        second: net.vertex_count as u32,
        third: net.edge_count as u32,
        fourth: net.letter_count as u32,
        fifth: Sheet::EDITION,
    }
}

// The line of vertex j, counted from 0; on the sheet they count from 1. No `From`, since the vertex alone does not give its line.
fn vertex_line(x: Vertex, j: usize) -> Line
    requires { j < most_vertices }
    ensures { result ≡ vertex_line j x }
{
    Line {
        kind: Line::VERTEX,
        second: (j + 1) as u32,
        third: x.role as u32,
        fourth: x.label as u32,
        fifth: 0,
    }
}

// Line j below the header, counted from 0: vertices come before edges, which stand in the record's order. No `From`: it takes the
// record and a place.
fn body_line(net: Net, j: usize) -> Line
    requires { Sized net × (j < net.vertex_count + net.edge_count) }
    ensures { result ≡ body_line net j }
{
    let vertices = net.vertex_count as usize;
    if j < vertices {
        return vertex_line(net.vertices[j], j);
    }
    Line::from(net.edges[j - vertices])
}

fn write_body(out: &mut [u8], columns: usize, net: Net)
    requires { Sized net × (columns ≤ most_columns) × (length out.old ≡ line_bytes columns * (net.vertex_count + net.edge_count)) }
    ensures { out.new ≡ vertex_lines columns 0 (take net.vertex_count net.vertices) ++ edge_lines columns (take net.edge_count net.edges) }
{
    let width = sheet::line_bytes(columns);
    let count = net.vertex_count as usize + net.edge_count as usize;
    for j in 0..count {
        let at = width * j;
        let end = at + width;
        line_values::write_line(&mut out[at..end], columns, body_line(net, j));
    }
}

// How many bytes the sheet of a record has.
pub(crate) fn sheet_bytes(net: Net, columns: usize) -> usize
    requires { Sized net × (columns ≤ most_columns) }
    ensures { result ≡ line_bytes columns * (1 + (net.vertex_count + net.edge_count)) }
{
    let lines = 1 + (net.vertex_count as usize + net.edge_count as usize);
    sheet::line_bytes(columns) * lines
}

// The sheet of a record: its header, then the other lines.
pub(crate) fn write_sheet(out: &mut [u8], columns: usize, net: Net)
    requires { Sized net × (columns ≤ most_columns) × (length out.old ≡ line_bytes columns * (1 + (net.vertex_count + net.edge_count))) }
    ensures { out.new ≡ write_in columns net }
{
    let first = sheet::line_bytes(columns);
    let header = header_line(net);
    line_values::write_line(&mut out[..first], columns, header);
    write_body(&mut out[first..], columns, net);
}
