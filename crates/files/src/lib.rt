//! The files of a program, and the buffers that they are read to. What cannot be opened, read or written is told on standard error; what cannot be opened or
//! read counts as the end of the file.
#![tactic(auto)]

ghost use Rattle.std.specs.Prelude.{◌≤◌, ◌≡◌, true, false, length, take, replicate, OnOk};
ghost use Rattle.std.specs.Counts.{IsPrefixLen};
ghost use Rattle.std.specs.Io.KnownBytes.{Appends, Consumes, ReadConsumes};
ghost use Rattle.files.specs.Reads.{Opened, Within, descriptor, left_of};

use std::fs::File;
use std::io::{Cursor, Error, ErrorKind, Read, Write};
use std::os::fd::AsRawFd;
use std::{fs, io};

// How often a read that a signal interrupted is tried again; what is proved to end cannot try for ever.
const MOST_TRIES: u32 = 1000;

// The system's number where nothing failed: its words for a write that takes nothing.
const NO_ERROR: i32 = 0;

// The system's number for bytes that are no text: the library opens files whose name is text.
const NO_TEXT: i32 = 84;

// Room for the words that an error is printed with.
const WORDS_BYTES: usize = 128;

// A buffer of so many bytes, each of them `byte`.
pub fn buffer<const N: usize>(byte: u8) -> [u8; N]
    ensures size { N ≡ length result }
    ensures value { result ≡ replicate N byte }
{
    [byte; N]
}

// The text of an error up to the number that std prints behind the system's words, as ` (os error 2)`.
fn without_number(words: &[u8]) -> &[u8] {
    match words.iter().rposition(|b| *b == b'(') {
        Some(at) => &words[..at.saturating_sub(1)],
        None => words,
    }
}

// Tells an error on standard error: what failed, as the caller names it, and the system's words. Where that cannot be told, nothing is.
fn fail(rt: &HostRuntime, told: &[u8], error: Error) {
    let mut words = Cursor::new([0u8; WORDS_BYTES]);
    let _ = write!(words, "{error}");
    let size = (words.position() as usize).min(WORDS_BYTES);
    let text = words.into_inner();
    let out = rt.stderr();
    let _ = Print::write_all(&out, told);
    let _ = Print::write_all(&out, b": ");
    let _ = Print::write_all(&out, without_number(&text[..size]));
    let _ = Print::write_all(&out, b"\n");
}

// Opens a file for reading. What is told where that fails is the program's name and the file's.
pub fn open(rt: &HostRuntime, name: &[u8], told: &[u8]) -> Option<File>
    ensures { Opened (descriptor result) }
{
    let Ok(path) = str::from_utf8(name) else {
        fail(rt, told, Error::from_raw_os_error(NO_TEXT));
        return None;
    };
    match fs::open(rt, path) {
        Ok(file) => {
            if file.as_raw_fd() >= 0 {
                return Some(file);
            }
            fail(rt, told, Error::from_raw_os_error(NO_ERROR));
        }
        Err(error) => fail(rt, told, error),
    }
    None
}

fn read_once<F: Read>(file: &mut F, buffer: &mut [u8]) -> io::Result<usize>
    ensures within { Within (length buffer.new) result }
    ensures bytes { ReadConsumes (F.remaining file.old) (F.remaining file.new) result buffer.new }
{
    file.read(buffer)
}

fn read_some<F: Read>(file: &mut F, buffer: &mut [u8]) -> io::Result<usize>
    ensures within { Within (length buffer.new) result }
    ensures bytes { ReadConsumes (F.remaining file.old) (F.remaining file.new) result buffer.new }
{
    let tries = MOST_TRIES;
    let mut got = read_once(file, buffer);
    for _ in 0..tries {
        if !is_interrupted(&got) {
            return got;
        }
        got = read_once(file, buffer);
    }
    got
}

// Whether a signal interrupted a read.
fn is_interrupted(got: &io::Result<usize>) -> bool
    ensures { OnOk got.now (result ≡ false) }
{
    match got {
        Ok(_) => false,
        Err(error) => error.kind() == ErrorKind::Interrupted,
    }
}

// How many bytes could be read; a failure is told.
fn read_more<F: Read>(rt: &HostRuntime, file: &mut F, told: &[u8], buffer: &mut [u8]) -> usize
    ensures within { result ≤ length buffer.new }
    ensures bytes { Consumes (F.remaining file.old) (F.remaining file.new) (take result buffer.new) }
{
    match read_some(file, buffer) {
        Ok(count) => count,
        Err(error) => {
            fail(rt, told, error);
            return 0;
        }
    }
}

// Reads until the buffer is full, the file ends or a read fails. Not `read_exact`, which does not tell how many bytes a shorter file has, and tries an
// interrupted read more often.
fn read_file<F: Read>(rt: &HostRuntime, file: &mut F, told: &[u8], buffer: &mut [u8]) -> usize
    ensures in_bounds { IsPrefixLen result buffer.new }
    ensures bytes { Consumes (F.remaining file.old) (F.remaining file.new) (take result buffer.new) }
{
    let mut done: usize = 0;
    while done < buffer.len() {
        let more = read_more(rt, file, told, &mut buffer[done..]);
        if more == 0 {
            break;
        }
        done += more;
    }
    done
}

// The same of a file that may not be there: one that could not be opened has no bytes.
pub fn read<F: Read>(
    rt: &HostRuntime,
    file: &mut Option<F>,
    told: &[u8],
    buffer: &mut [u8],
) -> usize
    ensures in_bounds { IsPrefixLen result buffer.new }
    ensures bytes { Consumes (left_of F.remaining file.old) (left_of F.remaining file.new) (take result buffer.new) }
{
    match file {
        Some(file) => read_file(rt, file, told, buffer),
        None => 0,
    }
}

// Reads a file of the folder that the program is run in, as far as the buffer has room; no bytes where it cannot be opened.
pub fn read_named(rt: &HostRuntime, name: &[u8], told: &[u8], buffer: &mut [u8]) -> usize
    ensures { IsPrefixLen result buffer.new }
{
    let mut file = open(rt, name, told);
    read(rt, &mut file, told, buffer)
}

// Writes all of a text, or stops at the first write that takes nothing or fails. Not `write_all`, which tries an interrupted write again and has other words
// for one that takes nothing: what is told may not change.
fn write_whole<W: Write>(out: &mut W, text: &[u8]) -> io::Result<()>
    ensures { OnOk result (Appends (W.contents out.old) (W.contents out.new) text.now) }
{
    let mut rest = text;
    while !rest.is_empty() {
        let count = out.write(rest)?;
        if count == 0 {
            return Err(Error::from_raw_os_error(NO_ERROR));
        }
        rest = &rest[count..];
    }
    Ok(())
}

// Writes a text to the output, and answers whether all of it was written; a failure is told. Where there is nothing to write, nothing fails.
pub fn write<W: Write>(rt: &HostRuntime, out: &mut W, told: &[u8], text: &[u8]) -> bool
    ensures nothing { length text.now ≡ 0 → result ≡ true }
    ensures bytes { result ≡ true → Appends (W.contents out.old) (W.contents out.new) text.now }
{
    if text.is_empty() {
        return true;
    }
    match write_whole(out, text) {
        Ok(()) => true,
        Err(error) => {
            fail(rt, told, error);
            false
        }
    }
}

#[cfg(test)]
mod tests {
    use super::*;

    // A file whose reads are first interrupted so often, then give so many bytes, one at a time, and then fail.
    #[derive(Drop)]
    struct Flaky {
        interruptions: u32,
        bytes: u32,
    }

    impl Read for Flaky {
        fn read(&mut self, buf: &mut [u8]) -> io::Result<usize> {
            if self.interruptions > 0 {
                self.interruptions -= 1;
                return Err(Error::from(ErrorKind::Interrupted));
            }
            if self.bytes == 0 || buf.len() == 0 {
                return Err(Error::from(ErrorKind::Other));
            }
            self.bytes -= 1;
            buf[0] = b'x';
            Ok(1)
        }
    }

    // A read is tried again 1000 times, and what was read before a failure counts.
    #[test]
    fn reads_what_comes_before_a_failure(rt: HostRuntime) {
        for (interruptions, bytes, want) in [
            (0, 0, 0),
            (0, 3, 3),
            (0, 9, 4),
            (1000, 2, 2),
            (1001, 2, 0),
        ] {
            let mut file = Some(Flaky {
                interruptions,
                bytes,
            });
            let mut buffer = [0u8; 4];
            let size = read(&rt, &mut file, b"test", &mut buffer);
            assert_eq!(rt; size, want, "at {interruptions} and {bytes}");
        }
    }

    // What is written are all the bytes, as far as they are taken.
    #[test]
    fn writes_what_is_taken(rt: HostRuntime) {
        let mut out = Cursor::new([0u8; 4]);
        assert!(rt; write(&rt, &mut out, b"test", b""));
        assert!(rt; write(&rt, &mut out, b"test", b"abc"));
        assert!(rt; !write(&rt, &mut out, b"test", b"def"));
        assert_eq!(rt; out.into_inner(), *b"abcd");
    }

    #[test]
    fn missing_file_has_no_bytes(rt: HostRuntime) {
        let mut file = open(&rt, b"no such file", b"test");
        let mut buffer = [0u8; 4];
        assert!(rt; file.is_none());
        assert_eq!(rt; read(&rt, &mut file, b"test", &mut buffer), 0);
    }

    #[test]
    fn name_that_is_no_text_opens_nothing(rt: HostRuntime) {
        assert!(rt; open(&rt, b"\xff", b"test").is_none());
    }

    // The system's words, with no number.
    #[test]
    fn words_of_an_error(rt: HostRuntime) {
        let missing = without_number(b"No such file or directory (os error 2)");
        assert!(rt; missing == b"No such file or directory".as_slice());
        assert!(rt; without_number(b"other") == b"other".as_slice());
    }
}
