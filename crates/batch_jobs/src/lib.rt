//! The jobs of a batch, each on its own bytes.
#![tactic(auto)]

ghost use Rattle.std.specs.Prelude.{◌≡◌, ◌*◌, ◌≤◌, length, take, drop};
ghost use Rattle.net.specs.Graph.{key_count};
ghost use Rattle.sheet.specs.Job.{job_of};
ghost use Rattle.lookups.specs.Passing.{passes_by};
ghost use Rattle.settlements.specs.Settle.{settlement};
ghost use Rattle.settlements.specs.Passed.{settled_by};
ghost use Rattle.settlements.specs.Batch.{job_count, pieces, job_width, answer_width, job_settlement, buffers, run_jobs};
ghost use Rattle.settlements.specs.Ready.{Ready};

use lookups::LookUps;
use net::Net;
use settlements::Settling;
use sheet::{Answer, Job, Sheet};

// Both passes of a job, and r and t to the front of two buffers with room; a start that is not stable is refused.
pub fn settle(look_ups: &LookUps, job: Job, r: &mut [u8], t: &mut [u8]) -> Settling
    requires { let l = look_ups.now in (l.count ≤ length r.old) × (l.count ≤ length t.old) }
    ensures { let l = look_ups.now in settlement result r.new t.new ≡ settled_by l.count (passes_by l.tables.now l.additions.now l.count job.old job.new job.start) r.old t.old }
{
    let passed = passes::passes(
        look_ups,
        job.old as usize,
        job.new as usize,
        job.start as usize,
    );
    let Some(passed) = passed else {
        return job_tests::refused(Answer::UNSTABLE_START, 0);
    };
    writing::write(r, &passed.first, look_ups.count);
    writing::write(t, &passed.second, look_ups.count);
    Settling {
        number: 0,
        place: 0,
        first_steps: passed.first_steps,
        second_steps: passed.second_steps,
    }
}

// One job on its own bytes: its r, then its t.
fn job(net: Net, look_ups: &LookUps, line: &[u8], own: &mut [u8]) -> Settling
    requires { let l = look_ups.now in Ready net l.count l.tables.now l.additions.now × (length own.old ≡ job_width net) }
    ensures { settlement result (take (key_count net) own.new) (drop (key_count net) own.new) ≡ job_settlement net (job_of line.now) own.old }
{
    let Some(asked) = line_values::job(line) else {
        return job_tests::refused(Answer::NO_JOB, 0);
    };
    let letters = net.letter_count as usize;
    if let Some(number) = job_tests::state_number(letters, look_ups.count, asked) {
        return job_tests::refused(number, 0);
    }
    let (r, t) = own.split_at_mut(look_ups.count);
    settle(look_ups, asked, r, t)
}

// All jobs in turn, each lent its own parts of the results and of the answers.
pub fn run(net: Net, look_ups: &LookUps, lines: &[u8], results: &mut [u8], answers: &mut [u8])
    requires { let l = look_ups.now in Ready net l.count l.tables.now l.additions.now × (job_count lines.now * job_width net ≤ length results.old) × (job_count lines.now * answer_width ≤ length answers.old) }
    ensures { buffers results.new answers.new ≡ run_jobs net (pieces (job_count lines.now) lines.now) results.old answers.old }
{
    let width = Settling::VECTORS * look_ups.count;
    for (i, line) in lines.chunks(Sheet::LINE_WIDTH).enumerate() {
        let at = i * width;
        let place = i * Settling::ANSWER_BYTES;
        let answer = job(net, look_ups, line, &mut results[at..at + width]);
        writing::write_answer(&mut answers[place..place + Settling::ANSWER_BYTES], answer);
    }
}
