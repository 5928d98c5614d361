//! A piece of the jobs: the lines of it that are read, and the text of their jobs on the net of an accepted sheet.
ghost use Rattle.std.specs.Prelude.{suc, ◌-◌, ◌*◌, ◌≤◌, min, ◌≡◌, true, length, replicate};
ghost use Rattle.sheet.specs.Limits.{line_width};
ghost use Rattle.sheet.specs.Valid.{valid};
ghost use Rattle.output.specs.declared.Written.TheVariants.{Bytes};
ghost use Rattle.output.specs.Limits.{most_jobs, piece_jobs, piece_bytes};
ghost use Rattle.output.specs.Output.{net_text};
ghost use Rattle.output.specs.Calls.{report, put, read_lines};
ghost use Rattle.report_pieces.specs.Pieces.{Ready};

use net::Net;
use output::Report;
use settlements::Settling;
use sheet::Sheet;

// The most bytes of r and t, and of answers, that the jobs of a piece have.
const RESULT_BYTES: usize = Report::PIECE_JOBS * (Settling::VECTORS * Net::MOST_KEY_NODES);

const ANSWER_BYTES: usize = Report::PIECE_JOBS * Settling::ANSWER_BYTES;

// The most bytes that are read of a piece: no more than a piece has, and none past the last job.
fn most_bytes(first: u32) -> usize
    ensures { result ≡ min piece_jobs (suc most_jobs - first) * line_width }
{
    let left = (Report::MOST_JOBS + 1).saturating_sub(first as usize);
    Report::PIECE_JOBS.min(left) * Sheet::LINE_WIDTH
}

// The lines that are read of a piece whose first job has this number.
pub(crate) fn read_lines(first: u32, lines: &[u8]) -> &[u8]
    ensures { result.now ≡ read_lines first lines.now }
{
    let end = most_bytes(first).min(lines.len());
    &lines[..end]
}

// Zeros for the jobs of a piece, of which a call lends as many as its jobs need. Not `files::buffer`: the library for C stands on this crate and opens no file.
fn zeros<const N: usize>() -> [u8; N]
    ensures { result ≡ replicate N 0 }
{
    [0; N]
}

// Runs the jobs, and writes their lines unless the batch is refused. Answers how many bytes it wrote. The buffers are those
// that `write` lends, and go no further.
fn run<'a, 'b>(
    net: Net,
    h: usize,
    count: usize,
    first: usize,
    lines: &'a [u8],
    results: &'b mut [u8],
    answers: &'b mut [u8],
    out: &'b mut [u8],
) -> u32
    requires { Ready net h count first lines.now results.old answers.old out.old }
    ensures { report (Bytes result) out.new ≡ put Bytes piece_bytes (net_text net first lines.now) out.old }
{
    let answer = settling::batch(net, lines, results, answers);
    if answer.number != 0 {
        return 0;
    }
    crate::job_lines::write_jobs(out, h, count, first, results, answers);
    (count * crate::job_lines::job_bytes(h)) as u32
}

// Writes the text of the jobs of lines that are read, and answers how many bytes it has.
pub(crate) fn write<'a, 'b>(net: Net, first: u32, lines: &'a [u8], out: &'b mut [u8]) -> u32
    requires { (valid net ≡ true) × (length lines.now ≤ piece_jobs * line_width) × (piece_bytes ≤ length out.old) }
    ensures { report (Bytes result) out.new ≡ put Bytes piece_bytes (net_text net first lines.now) out.old }
{
    let count = job_tests::job_count(lines);
    let h = graph::key_count(net);
    let results_end = count * (Settling::VECTORS * h);
    let answers_end = count * Settling::ANSWER_BYTES;
    let mut results: [u8; RESULT_BYTES] = zeros();
    let mut answers: [u8; ANSWER_BYTES] = zeros();
    run(
        net,
        h,
        count,
        first as usize,
        lines,
        &mut results[0..results_end],
        &mut answers[0..answers_end],
        out,
    )
}
