//! The numbers of a line: the five of any line, read and written, and the three that a job line asks for. Types, definitions and laws are those of the crate `sheet`.
#![tactic(auto)]

ghost use Rattle.std.specs.Prelude.{◌≡◌, ◌≤◌, ◌<◌, length};
ghost use Rattle.sheet.specs.Limits.{most_columns, field_count, ReadColumns, line_bytes};
ghost use Rattle.sheet.specs.Field.{field_answer};
ghost use Rattle.sheet.specs.Line.{field_at, read_line, write_line, line_answer};
ghost use Rattle.sheet.specs.Job.{job_in, job_of};

use sheet::{Job, Line, Sheet};

// Field i of a line, counted from 0.
fn field_of(part: &[u8], i: usize, columns: usize) -> Option<u32>
    requires { ReadColumns columns × (length part.now ≡ line_bytes columns) × (i < field_count) }
    ensures { result ≡ field_answer (field_at columns part.now i) }
{
    let a = columns * i;
    let e = a + columns;
    fields::read_field(&part[a..e], columns)
}

// The numbers of a line, which is five fields of so many columns and the byte that ends it.
pub fn read_line(part: &[u8], columns: usize) -> Option<Line>
    requires { ReadColumns columns }
    ensures { result ≡ line_answer (read_line columns part.now) }
{
    let width = sheet::line_bytes(columns);
    if part.len() != width {
        return None;
    }
    if part[width - 1] != Sheet::LINE_END {
        return None;
    }
    let kind = field_of(part, 0, columns)?;
    let second = field_of(part, 1, columns)?;
    let third = field_of(part, 2, columns)?;
    let fourth = field_of(part, 3, columns)?;
    let fifth = field_of(part, 4, columns)?;
    Some(Line {
        kind,
        second,
        third,
        fourth,
        fifth,
    })
}

// Writes a line: five fields of so many columns and the byte that ends it.
pub fn write_line(out: &mut [u8], columns: usize, line: Line)
    requires { (columns ≤ most_columns) × (length out.old ≡ line_bytes columns) }
    ensures { out.new ≡ write_line columns line }
{
    let four = columns * (Sheet::FIELDS - 1);
    let end = columns * Sheet::FIELDS;
    fields::write_four(
        &mut out[..four],
        columns,
        line.kind as u64,
        line.second as u64,
        line.third as u64,
        line.fourth as u64,
    );
    fields::write_field(&mut out[four..end], line.fifth as u64);
    out[end] = Sheet::LINE_END;
}

// A job line with so many columns a field is 4, the old input state, the new one, the start and 0.
pub fn job_in(bytes: &[u8], columns: usize) -> Option<Job>
    requires { ReadColumns columns }
    ensures { result ≡ job_in columns bytes.now }
{
    let v = read_line(bytes, columns)?;
    if v.kind != Line::JOB {
        return None;
    }
    if v.fifth != 0 {
        return None;
    }
    Some(Job {
        old: v.second,
        new: v.third,
        start: v.fourth,
    })
}

// A job line of the width in force.
pub fn job(bytes: &[u8]) -> Option<Job>
    ensures { result ≡ job_of bytes.now }
{
    job_in(bytes, Sheet::FIELD_WIDTH)
}
