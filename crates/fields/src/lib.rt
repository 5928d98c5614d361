//! Fields in code: blanks, then a decimal number, right-justified and without leading zeros. Types, definitions and laws are those of the crate `sheet`.
#![tactic(auto)]

ghost use Rattle.std.specs.Prelude.{◌≡◌, cond, ◌++◌, ◌+◌, ◌-◌, ◌*◌, ◌%◌, ◌≤◌, eqb, length};
ghost use Rattle.ternary.specs.Lists.{same};
ghost use Rattle.sheet.specs.Limits.{most_columns, ReadColumns, blank, digit_zero};
ghost use Rattle.sheet.specs.Field.{field_value, write_field, read_field, field_answer};

use sheet::Sheet;

// Numbers are decimal.
const BASE: u64 = 10;

// What a column counts: bytes below the digits, a blank among them, count 0.
fn digit(column: u8) -> u64
    ensures { result ≡ column - digit_zero }
{
    if column < Sheet::DIGIT_ZERO {
        return 0;
    }
    (column - Sheet::DIGIT_ZERO) as u64
}

// The number in the columns, whatever bytes they hold. No `fold`: its closure would have no bound on the sum so far.
fn value(b: &[u8]) -> u64
    requires { length b.now ≤ most_columns }
    ensures { result ≡ field_value b.now }
{
    let mut n: u64 = 0;
    for column in b {
        n = n * BASE + digit(*column);
    }
    n
}

// The byte of n's last digit.
fn last_column(n: u64) -> u8
    ensures { result ≡ digit_zero + n % 10 }
{
    Sheet::DIGIT_ZERO + (n % BASE) as u8
}

// A column left of the last, n being the number without the digits to its right: blank before the first digit.
fn left_column(n: u64) -> u8
    ensures { result ≡ cond (eqb n 0) blank (digit_zero + n % 10) }
{
    if n == 0 {
        return Sheet::BLANK;
    }
    last_column(n)
}

// Are these the columns of n? They are compared from the right, each time with one digit of n less, by their places as `write_field` sets them.
fn is_field(b: &[u8], n: u64) -> bool
    requires { 1 ≤ length b.now }
    ensures { result ≡ same b.now (write_field (length b.now) n) }
{
    let last = b.len() - 1;
    if b[last] != last_column(n) {
        return false;
    }
    let mut rest = n;
    for i in (0..last).rev() {
        rest /= BASE;
        if b[i] != left_column(rest) {
            return false;
        }
    }
    true
}

// A field is a number's exactly if writing the number in its columns gives the same bytes.
pub fn read_field(b: &[u8], columns: usize) -> Option<u32>
    requires { ReadColumns columns }
    ensures { result ≡ field_answer (read_field columns b.now) }
{
    if b.len() != columns {
        return None;
    }
    let n = value(b);
    if is_field(b, n) {
        return Some(n as u32);
    }
    None
}

// Writes n in as many columns as are lent; of a number of more digits the last ones. The columns go by their places: after `iter_mut().rev()` it is not
// known what was written.
pub fn write_field(out: &mut [u8], n: u64)
    ensures { out.new ≡ write_field (length out.old) n }
{
    let columns = out.len();
    if columns == 0 {
        return;
    }
    let last = columns - 1;
    out[last] = last_column(n);
    let mut rest = n;
    for i in (0..last).rev() {
        rest /= BASE;
        out[i] = left_column(rest);
    }
}

// Four numbers, a field of so many columns each. They are a line's or a job's or a verdict's, so no struct has them.
pub fn write_four(out: &mut [u8], columns: usize, first: u64, second: u64, third: u64, fourth: u64)
    requires { (columns ≤ most_columns) × (length out.old ≡ columns * 4) }
    ensures { out.new ≡ write_field columns first ++ write_field columns second ++ write_field columns third ++ write_field columns fourth }
{
    let two = columns + columns;
    let three = two + columns;
    write_field(&mut out[..columns], first);
    write_field(&mut out[columns..two], second);
    write_field(&mut out[two..three], third);
    write_field(&mut out[three..], fourth);
}
