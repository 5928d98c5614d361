//! The sheet of a record: in the agreed order of its edges, so that two records of one net give the same bytes, and in the record's own. What that means
//! stands in specs/, the laws of it in proofs/. The functions are in the crates `writer_order` and `writer_sheet`.
#![tactic(auto)]

use sheet::Answer;

// What writing a sheet answers: under a number the length is 0, beside it as counts are in document 01.
#[derive(Clone, Copy)]
pub struct Written {
    pub answer: Answer,
    pub length: u32,
}
