// Standard input and output and the arguments, as the programs use them. What fails is said on standard error, and then no answer is printed.
// No contract of the standard library says which bytes a read gave or a write took, so none here does.
#![tactic(auto)]

ghost use Rattle.std.specs.Prelude.{IfSome};
ghost use Rattle.io.specs.Counts.{IsPrefixLen};

use std::env::{Env, FillError};
use std::io::{Error, ErrorKind, Read, Write};

// Reads standard input until `buf` is full or the input ends, and gives how many bytes it put at the start of `buf`: fewer than the buffer
// holds only where the input ended. There is no answer where a read failed, which has been said.
pub fn read(rt: &HostRuntime, buf: &mut [u8]) -> Option<usize>
    ensures { IfSome result (λ n. IsPrefixLen n buf.new) }
{
    let mut done = 0;
    // It counts no index: it steps by what a read gave.
    while done < buf.len() {
        let n = read_some(rt, &mut buf[done..])?;
        if n == 0 {
            return Some(done);
        }
        done += n;
    }
    Some(done)
}

// A proved loop has to end, and nothing says that a read is not interrupted again and again. So this many interruptions in a row are a
// failure: a timer of a thousand signals a second takes more than a quarter of an hour for them.
const INTERRUPTIONS: u32 = 1000000;

// One read, which answers 0 at the input's end. Where a signal interrupts it before a byte came, it is begun again.
fn read_some(rt: &HostRuntime, buf: &mut [u8]) -> Option<usize>
    ensures { IfSome result (λ n. IsPrefixLen n buf.new) }
{
    for left in (0..INTERRUPTIONS).rev() {
        match rt.stdin().read(buf) {
            Ok(n) => return Some(n),
            Err(error) if 0 < left && error.kind() == ErrorKind::Interrupted => {}
            Err(error) => {
                fail(rt, b"standard input", error);
                return None;
            }
        }
    }
    None
}

// Writes a line.
pub fn print(rt: &HostRuntime, line: &[u8]) {
    if let Err(error) = Print::write_all(rt, line) {
        fail(rt, b"standard output", error);
    }
}

// Whether the program was started with `count` arguments. Where it was not, says how it is used.
pub fn has_args(rt: &HostRuntime, count: usize, usage: &[u8]) -> bool {
    if arg_count(rt) == count {
        return true;
    }
    say(rt, b"usage: ");
    say(rt, usage);
    say(rt, b"\n");
    false
}

// How many arguments there are behind the program's own name, which is the first, and which whoever starts it may leave out.
fn arg_count(rt: &HostRuntime) -> usize {
    (0..usize::MAX)
        .find(|i| !is_given(rt, i + 1))
        .unwrap_or(usize::MAX)
}

// An argument that is too long for the buffer is there too.
fn is_given(rt: &HostRuntime, i: usize) -> bool {
    !matches!(rt.arg(i, &mut []), Err(FillError::NotPresent))
}

// Writes a line to standard error: what failed, a colon and the system's words for why.
fn fail(rt: &HostRuntime, what: &[u8], error: Error) {
    let mut text = [0u8; 128];
    put_error(error, &mut text);
    let n = words_len(&text);
    say(rt, what);
    say(rt, b": ");
    say(rt, &text[..n]);
    say(rt, b"\n");
}

// Puts the error at the start of `text`, as far as it fits: the system's words and then its number, as in `Is a directory (os error 21)`.
fn put_error(error: Error, text: &mut [u8; 128]) {
    let mut rest: &mut [u8] = text;
    let _ = write!(rest, "{error}");
}

// How many bytes the words take: they end at the number, or at the zeros behind a text that has none.
fn words_len(text: &[u8]) -> usize
    ensures { IsPrefixLen result text.now }
{
    (0..text.len())
        .find(|&i| text[i] == 0 || text[i..].starts_with(b" (os error "))
        .unwrap_or(text.len())
}

// Where standard error takes nothing, there is nowhere to say so.
fn say(rt: &HostRuntime, text: &[u8]) {
    let _ = Print::write_all(&rt.stderr(), text);
}
