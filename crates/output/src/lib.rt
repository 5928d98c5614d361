//! The text that the program writes: definitions and laws, from the bytes of its two files to the bytes of its output. The code is in the crates over it, up to `report_opening` and `report_pieces`.
#![tactic(auto)]

use net::Net;
use sheet::{Answer, Sheet};

// What a call wrote: so many bytes; so many, and nothing is to follow; or none because the buffer is shorter than the call asks for.
// Three cases, so no Option.
#[derive(Clone, Copy)]
pub enum Written {
    Short,
    Bytes(u32),
    Last(u32),
}

// What a sheet is judged to be: the reader's answer or the verdict, and h, which is printed under a number too.
#[derive(Clone, Copy)]
pub struct Judged {
    pub answer: Answer,
    pub keys: u32,
}

// Limits and bytes of the output.
#[derive(Clone, Copy)]
pub struct Report;

impl Report {
    // Jobs past this one stay unread.
    pub const MOST_JOBS: usize = 9999;

    // Jobs that one call takes.
    pub const PIECE_JOBS: usize = 3333;

    // The lines of those jobs.
    pub const PIECE_LINES: usize = Report::PIECE_JOBS * Sheet::LINE_WIDTH;

    // What each line opens with.
    pub const FOUR_FIELDS: usize = 4 * Sheet::FIELD_WIDTH;

    // The first line: four fields and its end.
    pub const OPENING_BYTES: usize = Report::FOUR_FIELDS + 1;

    // The line of a job with the most key nodes: four fields, two blanks, two vectors and its end.
    pub const MOST_JOB_BYTES: usize = Report::FOUR_FIELDS + 2 * Net::MOST_KEY_NODES + 3;

    pub const PIECE_BYTES: usize = Report::PIECE_JOBS * Report::MOST_JOB_BYTES;

    pub const LETTER_X: u8 = 88;

    pub const HYPHEN: u8 = 45;
}
