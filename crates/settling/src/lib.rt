//! Settling and batches: the two passes as calls with their numbers and lent buffers. What each answers is defined in the crate `settlements`.
#![tactic(auto)]

ghost use Rattle.std.specs.Prelude.{◌≡◌, None};
ghost use Rattle.excitations.specs.Excitations.{excitation_lanes};
ghost use Rattle.settlements.specs.Settle.{settlement, settle_of};
ghost use Rattle.settlements.specs.Batch.{batched, batch_of};
ghost use Rattle.settlements.specs.Numbers.{net_refusal};

use net::Net;
use settlements::Settling;
use sheet::{Answer, Job};
use troubles::SoundNet;

// What a record is refused with, if it is: it is none of an accepted sheet, or breaks C1. Else its excitations are left to the caller.
fn refusal(net: Net, excitations: &mut [u8; Net::VERTEX_LANES]) -> Option<Answer>
    ensures told { result ≡ net_refusal net }
    ensures excited { result ≡ None → excitations.new ≡ excitation_lanes net }
{
    if !record::is_record(net) {
        return Some(Answer {
            number: Answer::BAD_RECORD,
            place: 0,
        });
    }
    if let Some(place) = c1::lowest_break(net, excitations) {
        return Some(Answer {
            number: Answer::BREAKS_C1,
            place,
        });
    }
    None
}

// Settling from an old to a new input state and a start: any record, any numbers, any two buffers. A call for anyone: the numbers are
// those of document 01, and no value of this repository has to be made first.
pub fn settle<'a>(
    net: Net,
    old: u32,
    new: u32,
    start: u32,
    r: &'a mut [u8],
    t: &'a mut [u8],
) -> Settling
    ensures { settlement result r.new t.new ≡ settle_of net old new start r.old t.old }
{
    let mut excitations = [0u8; Net::VERTEX_LANES];
    if let Some(answer) = refusal(net, &mut excitations) {
        return job_tests::refused(answer.number, answer.place);
    }
    let sound = SoundNet {
        net: &net,
        excitations: &excitations,
    };
    sound_settling::settle(&sound, Job { old, new, start }, r, t)
}

// A batch: every job on its own bytes of the results, with its own bytes of the answers.
pub fn batch<'a, 'b>(
    net: Net,
    jobs: &'a [u8],
    results: &'b mut [u8],
    answers: &'b mut [u8],
) -> Answer
    ensures { batched result results.new answers.new ≡ batch_of net jobs.now results.old answers.old }
{
    let mut excitations = [0u8; Net::VERTEX_LANES];
    if let Some(answer) = refusal(net, &mut excitations) {
        return answer;
    }
    let sound = SoundNet {
        net: &net,
        excitations: &excitations,
    };
    sound_settling::batch(&sound, jobs, results, answers)
}
