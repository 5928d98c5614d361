// Texts that a call makes in a buffer, and what is written of them.
ghost use Rattle.std.specs.Fn.{FnOnceReturnsAtMut};
ghost use Rattle.report_turns.specs.Texts.{PartWritten};

use super::written_part;
use output::Written;
use std::io::Write;

// Writes the text that a call makes in a buffer. Answers what the call says, and whether all of the text could be written; a failure is told.
pub fn write_text<W: Write, F: FnOnce(&mut [u8]) -> Written>(
    rt: &HostRuntime,
    out: &mut W,
    told: &[u8],
    buffer: &mut [u8],
    call: F,
) -> (Written, bool)
    requires { F.IsAlwaysCallable call }
    ensures made { FnOnceReturnsAtMut F.FnOnce call buffer.old result.0 buffer.new }
    ensures bytes { PartWritten (W.contents out.old) (W.contents out.new) result.1 result.0 buffer.new }
{
    let written = call(buffer);
    let is_written = files::write(rt, out, told, written_part(written, buffer));
    (written, is_written)
}
