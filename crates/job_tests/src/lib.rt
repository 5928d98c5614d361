//! Numbers: refusals, and the tests that give one.
#![tactic(auto)]

ghost use Rattle.std.specs.Prelude.{◌≡◌, ◌*◌, ◌≤◌, ltb};
ghost use Rattle.net.specs.Limits.{most_key_nodes};
ghost use Rattle.settlements.specs.Settle.{settling};
ghost use Rattle.settlements.specs.Batch.{job_count};
ghost use Rattle.settlements.specs.Numbers.{state_number};

use settlements::Settling;
use sheet::{Answer, Job, Sheet};

// An answer under a number: both counts are 0.
pub fn refused(number: u8, place: u16) -> Settling
    ensures { result ≡ settling number place 0 0 }
{
    Settling {
        number,
        place,
        first_steps: 0,
        second_steps: 0,
    }
}

// The number of the first state of a job that is none, if one is: two input states, then the start.
pub fn state_number(letters: usize, h: usize, job: Job) -> Option<u8>
    requires { (letters ≤ most_key_nodes) × (h ≤ most_key_nodes) }
    ensures { result ≡ state_number letters h job.old job.new job.start }
{
    if !states::is_below(job.old, letters) {
        return Some(Answer::BAD_INPUT_STATE);
    }
    if !states::is_below(job.new, letters) {
        return Some(Answer::BAD_INPUT_STATE);
    }
    if !states::is_below(job.start, h) {
        return Some(Answer::BAD_KEY_STATE);
    }
    None
}

// How many jobs the bytes hold: a short last piece is a job too.
pub fn job_count(jobs: &[u8]) -> usize
    ensures { result ≡ job_count jobs.now }
{
    jobs.len().div_ceil(Sheet::LINE_WIDTH)
}

// Are so many bytes too few for all jobs? Dividing the bytes leaves nothing that overflows.
pub fn is_short(bytes: usize, count: usize, width: usize) -> bool
    ensures { result ≡ ltb bytes (count * width) }
{
    if width == 0 {
        return false;
    }
    bytes / width < count
}
