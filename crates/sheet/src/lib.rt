//! The sheet: its lines, what reading one answers, and the record that an accepted sheet gives.
//! What a sheet means stands in specs/, the laws of it in proofs/. The functions over it are in the crates `fields`, `line_values`, `lines`, `rules`,
//! `graph_rows`, `record`, `sheet_readings` and `reader`.
#![tactic(auto)]

ghost use Rattle.std.specs.Prelude.{◌≡◌, ◌≤◌};
ghost use Rattle.sheet.specs.Limits.{most_columns, line_bytes, widths};
ghost use Rattle.sheet.specs.Rules.{form_of};
ghost use Rattle.sheet.specs.Writing.{edge_line};

use net::{Edge, Net, Vertex};

// Lines of five fields and the byte that ends them.
#[derive(Clone, Copy)]
pub struct Sheet;

impl Sheet {
    // The width in force. What reads a line takes its columns, so that another width is another number.
    pub const FIELD_WIDTH: usize = 4;

    pub const FIELDS: usize = 5;
    // The widest field that is read: 32 bits hold every number of nine digits.
    pub const MOST_COLUMNS: usize = 9;

    pub const LINE_WIDTH: usize = Sheet::FIELD_WIDTH * Sheet::FIELDS + 1;
    // A header, and a line for each vertex and each edge.
    pub const MOST_LINES: usize = 1 + Net::MOST_VERTICES + Net::MOST_EDGES;

    pub const MOST_BYTES: usize = Sheet::LINE_WIDTH * Sheet::MOST_LINES;
    // The bytes of a sheet: blanks and digits, the other digits following 0, and the end of a line.
    pub const BLANK: u8 = 32;

    pub const DIGIT_ZERO: u8 = 48;

    pub const LINE_END: u8 = 10;
    // The edition that a header names.
    pub const EDITION: u32 = 1;
}

// The five numbers of a line; the first says of what kind the line is.
#[derive(Clone, Copy)]
pub struct Line {
    pub kind: u32,
    pub second: u32,
    pub third: u32,
    pub fourth: u32,
    pub fifth: u32,
}

impl Line {
    // The kinds of a line. Numbers and no enum, since a line that is read may begin with any.
    pub const HEADER: u32 = 1;

    pub const VERTEX: u32 = 2;

    pub const EDGE: u32 = 3;

    pub const JOB: u32 = 4;
    // Of a gate sheet: its header, and the line of a gate.
    pub const GATES: u32 = 6;

    pub const GATE: u32 = 7;
}

// The line of an edge.
impl From<Edge> for Line {
    ghost from_gives = { λ e line. line ≡ edge_line e };

    fn from(e: Edge) -> Line {
        Line {
            kind: Line::EDGE,
            second: e.end1 as u32,
            third: e.end2 as u32,
            fourth: e.form as u32,
            fifth: e.symbol as u32,
        }
    }
}

// What the form of an edge is: plain, or primed, and then in need of a partner.
#[derive(Clone, Copy)]
pub enum Form {
    Plain,
    Primed,
    Unknown,
}

// What a form is.
impl From<u8> for Form {
    ghost from_gives = { λ form f. f ≡ form_of form };

    fn from(form: u8) -> Form {
        match form {
            0..=1 => Form::Plain,
            2..=3 => Form::Primed,
            _ => Form::Unknown,
        }
    }
}

// An answer is 0 or a number of the papers, with a place. No enum and no Option: document 01 has numbers, and a record or counts beside them under a refusal
// too; `sheet_readings::refusal` and `job_tests::refused` hand on any number, and a batch's bytes, the text and the calls for C are these numbers.
#[derive(Clone, Copy)]
pub struct Answer {
    pub number: u8,
    pub place: u16,
}

impl Answer {
    pub const BAD_LENGTH: u8 = 11;
    // Not five fields.
    pub const BAD_LINE: u8 = 12;

    pub const BAD_HEADER: u8 = 13;

    pub const BAD_LINE_COUNT: u8 = 14;
    // A line's value is not allowed.
    pub const BAD_VERTEX: u8 = 15;

    pub const BAD_EDGE: u8 = 16;
    // The rows over the graph.
    pub const NO_PARTNER: u8 = 21;

    pub const MANY_KEY_NODES: u8 = 22;

    pub const MANY_SIGNALS: u8 = 23;
    // The conditions that a verdict tests.
    pub const BREAKS_C1: u8 = 31;

    pub const BREAKS_C2: u8 = 32;

    pub const BREAKS_C3: u8 = 33;
    // What a call is handed is not fit: the record, an input state, a key state.
    pub const BAD_RECORD: u8 = 41;

    pub const BAD_INPUT_STATE: u8 = 42;

    pub const BAD_KEY_STATE: u8 = 43;
    // Settling: the start is not stable, a buffer is too short, a line is no job line.
    pub const UNSTABLE_START: u8 = 44;

    pub const SHORT_BUFFER: u8 = 45;

    pub const NO_JOB: u8 = 46;
    // The sheet has no full line of the number asked for.
    pub const NO_LINE: u8 = 47;

    pub const NO_STORAGE_VERTEX: u8 = 48;
    // Writing: the buffer is shorter than the sheet.
    pub const SHORT_FOR_SHEET: u8 = 51;
    // A line of a gate sheet has a value that is not allowed.
    pub const BAD_GATE_LINE: u8 = 52;
}

// What a line below the header adds to the record.
#[derive(Clone, Copy)]
pub enum Entry {
    Vertex(Vertex),
    Edge(Edge),
}

// What reading a sheet gives: under a number the record is empty, and there all the same (document 01).
#[derive(Clone, Copy)]
pub struct Reading {
    pub answer: Answer,
    pub net: Net,
}

// What a job line asks for: settling from an old input state to a new one, from a start.
#[derive(Clone, Copy)]
pub struct Job {
    pub old: u32,
    pub new: u32,
    pub start: u32,
}

// The widths and bytes as one value, to hold the constants to the definitions.
#[derive(Clone, Copy)]
pub struct Widths {
    pub field: usize,
    pub fields: usize,
    pub columns: usize,
    pub line: usize,
    pub lines: usize,
    pub sheet: usize,
    pub blank: u8,
    pub digit_zero: u8,
    pub line_end: u8,
    pub edition: u32,
}

// The code's widths and bytes are those of the definitions.
pub fn widths_in_force() -> Widths
    ensures { result ≡ widths }
{
    Widths {
        field: Sheet::FIELD_WIDTH,
        fields: Sheet::FIELDS,
        columns: Sheet::MOST_COLUMNS,
        line: Sheet::LINE_WIDTH,
        lines: Sheet::MOST_LINES,
        sheet: Sheet::MOST_BYTES,
        blank: Sheet::BLANK,
        digit_zero: Sheet::DIGIT_ZERO,
        line_end: Sheet::LINE_END,
        edition: Sheet::EDITION,
    }
}

// The bytes of a line with so many columns a field.
pub fn line_bytes(columns: usize) -> usize
    requires { columns ≤ most_columns }
    ensures { result ≡ line_bytes columns }
{
    columns * Sheet::FIELDS + 1
}
