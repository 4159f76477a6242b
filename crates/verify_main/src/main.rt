// Reads a program sheet from standard input and prints the verifier's answer: one line, `OK` or the number and the details.
// Anything over 32,768 bytes is answer 1, so what stands behind the buffer's 65,536 bytes changes nothing (`cut_verified` of crates/verify_line/proofs/Cut.antt).
// No contract can say which bytes are read or written, so `main` is proved only safe and ending. `verify_line::verify_line` has the
// contract on the bytes: from the sheet in the buffer to the line in `text`.
#![tactic(auto)]

use line_text::LINE;

fn main(rt: HostRuntime) {
    if !console::has_args(&rt, 0, b"verify_main < SHEET") {
        return;
    }
    let mut sheet = io::large_buffer();
    let Some(n) = console::read(&rt, &mut sheet) else {
        return;
    };
    let mut text = [0u8; LINE];
    let k = verify_line::verify_line(&sheet[..n], &mut text);
    console::print(&rt, &text[..k]);
}
