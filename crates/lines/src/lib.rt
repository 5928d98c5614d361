//! One line of a sheet by its number. Types, definitions and laws are those of the crate `sheet`.
#![tactic(auto)]

ghost use Rattle.std.specs.Prelude.{◌≡◌, ◌≤◌};
ghost use Rattle.sheet.specs.Limits.{most_columns};
ghost use Rattle.sheet.specs.Line.{has_line, line_in, sheet_line, line_number};

use sheet::{Answer, Sheet};

// Whether a sheet of this many bytes has a full line of number n. Dividing the bytes leaves nothing that overflows.
fn has_line(sheet: &[u8], columns: usize, n: usize) -> bool
    requires { columns ≤ most_columns }
    ensures { result ≡ has_line columns sheet.now n }
{
    if n == 0 {
        return false;
    }
    n <= sheet.len() / sheet::line_bytes(columns)
}

// Line n of a sheet with so many columns a field, the first line being 1: the caller's own bytes, none where there is no such line.
pub fn line_in(sheet: &[u8], columns: usize, n: usize) -> &[u8]
    requires { columns ≤ most_columns }
    ensures { result.now ≡ line_in columns sheet.now n }
{
    if !has_line(sheet, columns, n) {
        return &sheet[0..0];
    }
    let width = sheet::line_bytes(columns);
    let a = width * (n - 1);
    let e = a + width;
    &sheet[a..e]
}

// That line of a sheet of the width in force.
pub fn line(sheet: &[u8], n: usize) -> &[u8]
    ensures { result.now ≡ sheet_line sheet.now n }
{
    line_in(sheet, Sheet::FIELD_WIDTH, n)
}

// The number of that call's answer, as document 01 has it: 0, or 47 where there is no such line.
pub fn line_answer(sheet: &[u8], n: usize) -> u8
    ensures { result ≡ line_number sheet.now n }
{
    if has_line(sheet, Sheet::FIELD_WIDTH, n) {
        return 0;
    }
    Answer::NO_LINE
}
