// Reads a job sheet from standard input and writes its answer to standard output. Where standard input can't be read or standard output
// can't be written, a line on standard error says so, and the status is 1. Where nobody reads what it writes, it says nothing, and its
// status is that of a program that the signal of a broken pipe ends: std has a program go on past that signal.
#![tactic(auto)]

ghost use Rattle.io.specs.Counts.{IsPrefixLen};
ghost use Rattle.sheet.specs.Replies.{got_count, Replied};

use answering::{LONGEST, TEXT};
use std::io::{self, Error, ErrorKind, Read};
use std::process::ExitCode;

// Reads until the input ends or the buffer is full, and gives how many bytes at the front of the buffer were read; or the error of a read
// that failed. The bytes are counted by hand, since the library's `read_to_end` wants a heap and its `read_exact` an input that fills the buffer.
fn read_all<R: Read>(input: &mut R, buf: &mut [u8]) -> io::Result<usize>
    ensures { IsPrefixLen (got_count result) buf.new }
{
    let mut done = 0;
    while done < buf.len() {
        let more = input.read(&mut buf[done..])?;
        if more == 0 {
            break;
        }
        done += more;
    }
    Ok(done)
}

// The answer to what was read into the front of `sheet`: so many bytes of text to write. There is none where a read failed.
fn reply_to(got: io::Result<usize>, sheet: &[u8], text: &mut [u8; TEXT]) -> io::Result<usize>
    requires { IsPrefixLen (got_count got) sheet.now }
    ensures { Replied sheet.now text.new got result }
{
    let size = got?;
    Ok(answering::answer_sheet(&sheet[..size], text))
}

// Where standard error can't be written either, the status alone tells.
fn fail(rt: &impl Eprint, line: &str) -> ExitCode {
    let _ = rt.eprintln(line);
    ExitCode::FAILURE
}

// 141 is 128 and the number of the signal of a broken pipe.
fn fail_to_write(rt: &impl Eprint, why: &Error) -> ExitCode {
    if why.kind() == ErrorKind::BrokenPipe {
        return ExitCode::from(141);
    }
    fail(rt, "sheet: standard output can't be written")
}

// There is room for one byte more than a sheet may have, so that a longer one is noticed.
fn main(rt: HostRuntime) -> ExitCode {
    let mut sheet = [0u8; LONGEST + 1];
    let mut text = [0u8; TEXT];
    let got = read_all(&mut rt.stdin(), &mut sheet);
    let Ok(size) = reply_to(got, &sheet, &mut text) else {
        return fail(&rt, "sheet: standard input can't be read");
    };
    match rt.write_all(&text[..size]) {
        Err(why) => fail_to_write(&rt, &why),
        Ok(()) => ExitCode::SUCCESS,
    }
}
