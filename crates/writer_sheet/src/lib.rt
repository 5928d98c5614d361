//! Writing a record's sheet to a lent buffer: in the agreed order of its edges, or in the record's own. Types, definitions and laws are those of the
//! crates `sheet` and `writer`.
#![tactic(auto)]

mod lines;

ghost use Rattle.std.specs.Prelude.{◌≡◌, ◌≤◌};
ghost use Rattle.sheet.specs.Limits.{most_columns};
ghost use Rattle.sheet.specs.Rows.{answer};
ghost use Rattle.sheet.specs.Writing.{write_in};
ghost use Rattle.writer.specs.Write.{writing, writing_of, own_writing_of};
ghost use Rattle.writer.specs.Fronts.{Sized, at_front};

use net::Net;
use sheet::{Answer, Sheet};
use writer::Written;

// The sheet of a record that was tested, to the front of the buffer, if it has room.
fn put_front(net: Net, columns: usize, buffer: &mut [u8]) -> Written
    requires { Sized net × (columns ≤ most_columns) }
    ensures { writing result.answer result.length buffer.new ≡ at_front (write_in columns net) buffer.old }
{
    let length = lines::sheet_bytes(net, columns);
    if buffer.len() < length {
        return Written {
            answer: Answer {
                number: Answer::SHORT_FOR_SHEET,
                place: 0,
            },
            length: 0,
        };
    }
    lines::write_sheet(&mut buffer[..length], columns, net);
    Written {
        answer: Answer {
            number: 0,
            place: 0,
        },
        length: length as u32,
    }
}

// The refusal of what is no record.
fn bad_record() -> Written
    ensures { (result.answer ≡ answer 41 0) × (result.length ≡ 0) }
{
    Written {
        answer: Answer {
            number: Answer::BAD_RECORD,
            place: 0,
        },
        length: 0,
    }
}

// Any record in the agreed order, to the front of any buffer.
pub fn write(net: Net, buffer: &mut [u8]) -> Written
    ensures { writing result.answer result.length buffer.new ≡ writing_of net buffer.old }
{
    if !record::is_record(net) {
        return bad_record();
    }
    let ordered = writer_order::ordered(net);
    put_front(ordered, Sheet::FIELD_WIDTH, buffer)
}

// Any record in its own order, to the front of any buffer.
pub fn write_in_own_order(net: Net, buffer: &mut [u8]) -> Written
    ensures { writing result.answer result.length buffer.new ≡ own_writing_of net buffer.old }
{
    if !record::is_record(net) {
        return bad_record();
    }
    put_front(net, Sheet::FIELD_WIDTH, buffer)
}
