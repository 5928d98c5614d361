// What answers are written with.
ghost use Rattle.std.specs.Prelude.{◌≤◌, length, take, OnOk, IfOk};
ghost use Rattle.std.specs.Io.KnownBytes.{Appends};
ghost use Rattle.cases.specs.Columns.{columns, place_columns, result_columns, counted};

use super::number_text;
use sheet::Answer;
use std::io;
use std::io::{Error, ErrorKind, Write};

// How many tries a text has beside one for each byte, where signals interrupt its writes: as many as what the runtime prints.
const RETRIES: usize = 64;

// How many bytes one write takes; none where a signal interrupted it.
fn write_some<W: Write>(out: &mut W, bytes: &[u8]) -> io::Result<usize>
    ensures within { IfOk result (λ n. n ≤ length bytes.now) }
    ensures taken { IfOk result (λ n. Appends (W.contents out.old) (W.contents out.new) (take n bytes.now)) }
{
    match out.write(bytes) {
        Ok(0) => Err(Error::from(ErrorKind::WriteZero)),
        Ok(count) => Ok(count),
        Err(error) => {
            if error.kind() != ErrorKind::Interrupted {
                return Err(error);
            }
            Ok(0)
        }
    }
}

// Writes all of a text. Not `write_all`, which tries an interrupted write for ever.
fn write_text<W: Write>(out: &mut W, text: &[u8]) -> io::Result<()>
    ensures { OnOk result (Appends (W.contents out.old) (W.contents out.new) text.now) }
{
    let tries = text.len().saturating_add(RETRIES);
    let mut rest = text;
    for _ in 0..tries {
        if rest.is_empty() {
            return Ok(());
        }
        let count = write_some(out, rest)?;
        rest = &rest[count..];
    }
    if rest.is_empty() {
        return Ok(());
    }
    Err(Error::from(ErrorKind::Interrupted))
}

// Numbers in the columns of a field each. Every number is written, also after one that could not be; the first failure is answered.
pub fn write_columns<W: Write>(out: &mut W, numbers: &[u64]) -> io::Result<()>
    ensures { OnOk result (Appends (W.contents out.old) (W.contents out.new) (columns numbers.now)) }
{
    let mut told = Ok(());
    for n in numbers {
        let written = write_text(out, &number_text(*n));
        told = told.and(written);
    }
    told
}

// A number and its place.
pub fn write_place<W: Write>(out: &mut W, answer: Answer) -> io::Result<()>
    ensures { OnOk result (Appends (W.contents out.old) (W.contents out.new) (place_columns answer)) }
{
    write_columns(out, &[answer.number as u64, answer.place as u64])
}

// A text: how many bytes, and from the next line on these.
pub fn write_counted<W: Write>(out: &mut W, text: &[u8]) -> io::Result<()>
    ensures { OnOk result (Appends (W.contents out.old) (W.contents out.new) (counted text.now)) }
{
    let size = write_columns(out, &[text.len() as u64]);
    let end = write_text(out, b"\n");
    let bytes = write_text(out, text);
    size.and(end).and(bytes)
}

// A value, or the number of a refusal: 0 and the value, or the number and 0.
pub fn write_result<W: Write>(out: &mut W, given: Result<u8, u8>) -> io::Result<()>
    ensures { OnOk result (Appends (W.contents out.old) (W.contents out.new) (result_columns given)) }
{
    match given {
        Ok(value) => write_columns(out, &[0, value as u64]),
        Err(number) => write_columns(out, &[number as u64, 0]),
    }
}
