//! How a case of the test programs is laid out in their input. Each number has a field of the widest kind. A case may bring the sheet for the cases after
//! it, or a note that is printed as it stands. Numbers of their answers have a field each.
#![tactic(auto)]

ghost use Rattle.std.specs.Prelude.{◌≡◌, min, length};
ghost use Rattle.std.specs.Counts.{IsPrefixLen};
ghost use Rattle.sheet.specs.Line.{write_number};
ghost use Rattle.cases.specs.Input.{part_of, number_at, data_of, next_of};

mod answers;
mod runs;
mod streams;

pub use answers::{write_columns, write_counted, write_place, write_result};
pub use runs::run_cases;
use sheet::Sheet;
pub use streams::{at_most, read_input};

#[derive(Clone, Copy)]
pub struct Input;

impl Input {
    // The most bytes that a test program reads.
    pub const MOST_BYTES: usize = 256000;
}

// Where the parts of a case stand, counted from its kind, which is one byte: five numbers, the size of its data, its data.
#[derive(Clone, Copy)]
pub struct Case;

impl Case {
    // The kind of a note, whose data are printed as they stand.
    pub const NOTE: u8 = b'#';

    pub const FIRST: usize = 1;

    pub const SECOND: usize = Case::FIRST + Sheet::MOST_COLUMNS;

    pub const THIRD: usize = Case::SECOND + Sheet::MOST_COLUMNS;

    pub const FOURTH: usize = Case::THIRD + Sheet::MOST_COLUMNS;

    pub const FIFTH: usize = Case::FOURTH + Sheet::MOST_COLUMNS;

    const DATA_SIZE: usize = Case::FIFTH + Sheet::MOST_COLUMNS;

    const DATA: usize = Case::DATA_SIZE + Sheet::MOST_COLUMNS;
}

// Some bytes of the input; none where they are not all there.
fn part(input: &[u8], at: usize, n: usize) -> &[u8]
    ensures { result.now ≡ part_of input.now at n }
{
    let size = input.len();
    if size < n {
        return &input[0..0];
    }
    if size - n < at {
        return &input[0..0];
    }
    let end = at + n;
    &input[at..end]
}

// The number whose field stands at a place of the input; the largest of 32 bits, which no field holds, where none does: no Option, since the programs hand it
// on as it is.
pub fn number_at(input: &[u8], at: usize) -> u32
    ensures { result ≡ number_at input.now at }
{
    match fields::read_field(part(input, at, Sheet::MOST_COLUMNS), Sheet::MOST_COLUMNS) {
        Some(n) => n,
        None => u32::MAX,
    }
}

// The size that the number at a place gives for a lent buffer, at most all of it.
pub fn size_at(input: &[u8], at: usize, buffer: &[u8]) -> usize
    ensures in_bounds { IsPrefixLen result buffer.now }
    ensures value { result ≡ min (number_at input.now at) (length buffer.now) }
{
    at_most(number_at(input, at) as usize, buffer)
}

// The data of the case at a place.
pub fn data_of(input: &[u8], at: usize) -> &[u8]
    ensures { result.now ≡ data_of input.now at }
{
    if input.len() < at {
        return &input[0..0];
    }
    let size = number_at(input, at + Case::DATA_SIZE) as usize;
    part(input, at + Case::DATA, size)
}

// Where the case after the one at a place stands.
pub fn next_case(input: &[u8], at: usize) -> usize
    ensures { result ≡ next_of input.now at }
{
    let end = input.len();
    if end < at {
        return end;
    }
    let size = number_at(input, at + Case::DATA_SIZE) as usize;
    let next = at + Case::DATA + size;
    next.min(end)
}

// A number in the columns of a field, for an answer.
pub fn number_text(n: u64) -> [u8; Sheet::FIELD_WIDTH]
    ensures { result ≡ write_number n }
{
    let mut text = [0; Sheet::FIELD_WIDTH];
    fields::write_field(&mut text, n);
    text
}
