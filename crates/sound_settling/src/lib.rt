//! Settling and a batch on a net that an accepted sheet gives and that meets C1. What each answers is defined in the crate `settlements`.
#![tactic(auto)]

mod prepared;

ghost use Rattle.std.specs.Prelude.{◌≡◌};
ghost use Rattle.settlements.specs.Settle.{settlement, settle_of};
ghost use Rattle.settlements.specs.Batch.{batched, batch_of};

use lookups::LookUps;
use settlements::Settling;
use sheet::{Answer, Job};
use troubles::SoundNet;

// Settling: the states, the buffers, then the start.
pub fn settle<'a, 'b>(
    sound: &'a SoundNet<'a>,
    job: Job,
    r: &'b mut [u8],
    t: &'b mut [u8],
) -> Settling
    ensures { settlement result r.new t.new ≡ settle_of sound.now.net.now job.old job.new job.start r.old t.old }
{
    let net = *sound.net;
    let h = graph::key_count(net);
    let letters = net.letter_count as usize;
    if let Some(number) = job_tests::state_number(letters, h, job) {
        return job_tests::refused(number, 0);
    }
    if r.len() < h {
        return job_tests::refused(Answer::SHORT_BUFFER, 0);
    }
    if t.len() < h {
        return job_tests::refused(Answer::SHORT_BUFFER, 0);
    }
    let tables = prepared::ternary_tables(net, sound.excitations);
    let additions = prepared::additions(net);
    let look_ups = LookUps {
        tables: &tables,
        additions: &additions,
        count: h,
    };
    // As `batch_jobs::settle` has them: written out here, so that r taken for t is one wrong operand, which an edit that must fail plants.
    let passed = passes::passes(
        &look_ups,
        job.old as usize,
        job.new as usize,
        job.start as usize,
    );
    let Some(passed) = passed else {
        return job_tests::refused(Answer::UNSTABLE_START, 0);
    };
    writing::write(r, &passed.first, h);
    writing::write(t, &passed.second, h);
    Settling {
        number: 0,
        place: 0,
        first_steps: passed.first_steps,
        second_steps: passed.second_steps,
    }
}

// A batch: room for all jobs, then the jobs.
pub fn batch<'a, 'b>(
    sound: &'a SoundNet<'a>,
    lines: &'a [u8],
    results: &'b mut [u8],
    answers: &'b mut [u8],
) -> Answer
    ensures { batched result results.new answers.new ≡ batch_of sound.now.net.now lines.now results.old answers.old }
{
    let net = *sound.net;
    let h = graph::key_count(net);
    let count = job_tests::job_count(lines);
    if job_tests::is_short(results.len(), count, Settling::VECTORS * h) {
        return Answer {
            number: Answer::SHORT_BUFFER,
            place: 0,
        };
    }
    if job_tests::is_short(answers.len(), count, Settling::ANSWER_BYTES) {
        return Answer {
            number: Answer::SHORT_BUFFER,
            place: 0,
        };
    }
    let tables = prepared::ternary_tables(net, sound.excitations);
    let additions = prepared::additions(net);
    let look_ups = LookUps {
        tables: &tables,
        additions: &additions,
        count: h,
    };
    batch_jobs::run(net, &look_ups, lines, results, answers);
    Answer {
        number: 0,
        place: 0,
    }
}
