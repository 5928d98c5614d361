//! The lines of jobs in code: the line of one job, and those of many in turn. Each is written to a lent part of just its size. Definitions and limits
//! are those of the crate `output`.

ghost use Rattle.std.specs.Prelude.{◌≡◌, ◌++◌, ◌+◌, ◌*◌, ◌^◌, ◌≤◌, ◌<◌, length, drop};
ghost use Rattle.net.specs.Limits.{most_key_nodes};
ghost use Rattle.settlements.specs.Batch.{answer_width};
ghost use Rattle.output.specs.Limits.{job_bytes};
ghost use Rattle.output.specs.Text.{job_text, job_texts};

use output::Report;
use settlements::Settling;
use sheet::Sheet;

// The bytes of a job's line.
pub(crate) fn job_bytes(h: usize) -> usize
    requires { h ≤ most_key_nodes }
    ensures { result ≡ job_bytes h }
{
    Report::FOUR_FIELDS + 2 * h + 3
}

// The line of a job: its number n, its three answer bytes, its r and its t.
fn write_job<'a, 'b>(out: &'a mut [u8], h: usize, n: usize, three: &'b [u8], own: &'b [u8])
    requires { (length out.old ≡ job_bytes h) × (length three.now ≡ answer_width) × (length own.now ≡ 2 * h) }
    ensures { out.new ≡ job_text h n three.now own.now }
{
    let number = three[0];
    let first_steps = three[1];
    let second_steps = three[2];
    let end = Report::FOUR_FIELDS;
    fields::write_four(
        &mut out[..end],
        Sheet::FIELD_WIDTH,
        n as u64,
        number as u64,
        first_steps as u64,
        second_steps as u64,
    );
    crate::line_vectors::write_both(&mut out[end..], h, number, own);
}

// The lines of so many jobs, the first of them numbered `first`, to the front of a buffer: the buffers of one call, and what is in them.
pub(crate) fn write_jobs<'a, 'b>(
    out: &'a mut [u8],
    h: usize,
    count: usize,
    first: usize,
    results: &'b [u8],
    answers: &'b [u8],
)
    requires { (h ≤ most_key_nodes) × (first + count < 2 ^ 64) × (count * job_bytes h ≤ length out.old) × (count * (2 * h) ≤ length results.now) × (count * answer_width ≤ length answers.now) }
    ensures { out.new ≡ job_texts h count first results.now answers.now ++ drop (count * job_bytes h) out.old }
{
    let line = job_bytes(h);
    let width = Settling::VECTORS * h;
    for i in 0..count {
        let at = i * line;
        let from = i * width;
        let place = i * Settling::ANSWER_BYTES;
        write_job(
            &mut out[at..at + line],
            h,
            first + i,
            &answers[place..place + Settling::ANSWER_BYTES],
            &results[from..from + width],
        );
    }
}
