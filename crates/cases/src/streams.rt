// What the test programs read.
ghost use Rattle.std.specs.Prelude.{◌≡◌, ◌≤◌, min, length};
ghost use Rattle.std.specs.Counts.{IsPrefixLen};

use std::io::Read;

// How many bytes of the input one read gives; none at its end or where the read fails.
fn read_some(rt: &HostRuntime, buffer: &mut [u8]) -> usize
    ensures { result ≤ length buffer.new }
{
    let mut input = rt.stdin();
    input.read(buffer).unwrap_or(0)
}

// Reads standard input until the buffer is full, the input ends or a read fails, and answers how many bytes there are. Not `read_exact`, which does not tell
// how many bytes a short input has, nor `files::read`, which tells a failure.
pub fn read_input(rt: &HostRuntime, buffer: &mut [u8]) -> usize
    ensures { IsPrefixLen result buffer.new }
{
    let mut done: usize = 0;
    while done < buffer.len() {
        let more = read_some(rt, &mut buffer[done..]);
        if more == 0 {
            break;
        }
        done += more;
    }
    done
}

// So many bytes of a buffer, at most all of it.
pub fn at_most(n: usize, buffer: &[u8]) -> usize
    ensures in_bounds { IsPrefixLen result buffer.now }
    ensures value { result ≡ min n (length buffer.now) }
{
    n.min(buffer.len())
}
