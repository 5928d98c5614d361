//! The calls for C: numbers and byte slices alone, under names that begin with `settle_`. Further results go through lent numbers.
#![tactic(auto)]

ghost use Rattle.std.specs.Prelude.{◌≡◌};
ghost use Rattle.sheet.specs.Rows.{answer};
ghost use Rattle.settlements.specs.Batch.{batched};
ghost use Rattle.output.specs.Output.{judged, judged_of};
ghost use Rattle.output.specs.ForC.{sheet_batch, sheet_batch_of, told, numbers_of, text_call, opening_call_of, piece_call_of};

use output::Written;
use sheet::Answer;

// What a sheet is judged to be: the reader's number or else the verdict's, its place, and h.
#[unsafe(no_mangle)]
pub extern "C" fn settle_verdict(sheet: &[u8], place: &mut u32, h: &mut u32) -> u32
    ensures { judged (answer result place.new) h.new ≡ judged_of sheet.now }
{
    let judged = report_opening::judge(sheet);
    let answer = judged.answer;
    *place = answer.place as u32;
    *h = judged.keys;
    answer.number as u32
}

// A batch on the net of a sheet, with its place and h.
#[unsafe(no_mangle)]
pub extern "C" fn settle_batch(
    sheet: &[u8],
    jobs: &[u8],
    results: &mut [u8],
    answers: &mut [u8],
    place: &mut u32,
    h: &mut u32,
) -> u32
    ensures { sheet_batch (batched (answer result place.new) results.new answers.new) h.new ≡ sheet_batch_of sheet.now jobs.now results.old answers.old }
{
    let reading = reader::read(sheet);
    let read = reading.answer;
    if read.number != 0 {
        *place = read.place as u32;
        *h = 0;
        return read.number as u32;
    }
    let net = reading.net;
    let whole = settling::batch(net, jobs, results, answers);
    let keys = graph::key_count(net);
    *place = whole.place as u32;
    *h = keys as u32;
    whole.number as u32
}

// What a call of the report wrote, as numbers: 0 and how many bytes, or 45 and none.
fn tell(wrote: Written, written: &mut u32) -> u32
    ensures { told result written.new ≡ numbers_of wrote }
{
    match wrote {
        Written::Bytes(n) | Written::Last(n) => {
            *written = n;
            0
        }
        Written::Short => {
            *written = 0;
            Answer::SHORT_BUFFER as u32
        }
    }
}

// The first line of the text.
#[unsafe(no_mangle)]
pub extern "C" fn settle_opening(sheet: &[u8], out: &mut [u8], written: &mut u32) -> u32
    ensures { text_call (told result written.new) out.new ≡ opening_call_of sheet.now out.old }
{
    let wrote = report_opening::opening(sheet, out);
    tell(wrote, written)
}

// The lines of the jobs of a piece whose first job has this number.
#[unsafe(no_mangle)]
pub extern "C" fn settle_piece<'a, 'b>(
    sheet: &'a [u8],
    first: u32,
    lines: &'a [u8],
    out: &'b mut [u8],
    written: &'b mut u32,
) -> u32
    ensures { text_call (told result written.new) out.new ≡ piece_call_of sheet.now first lines.now out.old }
{
    let wrote = report_pieces::piece(sheet, first, lines, out);
    tell(wrote, written)
}
