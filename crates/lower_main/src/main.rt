// Reads a contract sheet from standard input, lowers it with an output of 32,768 bytes and prints the answer: one line, `OK` and the program
// sheet's bytes in hexadecimal, or the number and the details.
// Anything over 32,768 bytes is answer 1, so what stands behind the buffer's 65,536 bytes changes nothing (`cut_lowered` of crates/lower_line/proofs/Cut.antt).
// No contract can say which bytes are read or written, so `main` is proved only safe and ending. `lower_line::lower_line` has the contract on the
// bytes: from the sheet in the buffer to the line in `text`.
#![tactic(auto)]

use format::MOST_BYTES;
use lower_line::LOWERED_LINE;

fn main(rt: HostRuntime) {
    if !console::has_args(&rt, 0, b"lower_main < SHEET") {
        return;
    }
    let mut sheet = io::large_buffer();
    let Some(n) = console::read(&rt, &mut sheet) else {
        return;
    };
    let mut out = [0u8; MOST_BYTES];
    let mut text = [0u8; LOWERED_LINE];
    let k = lower_line::lower_line(&sheet[..n], &mut out, &mut text);
    console::print(&rt, &text[..k]);
}
