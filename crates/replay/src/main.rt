// Reads sheets from standard input, each behind a byte that says what is asked and its length in four bytes, and prints the answer to each
// as a line: `L` lowers a contract sheet with an output of 32,768 bytes, `V` verifies a program sheet, `C` checks a contract sheet's length,
// form and limits, as lowering does before its walk.
// tests/replay.sh makes the list that the program is run on, and the answers expected.
// No contract can say which bytes are read or written: `lower_line`, `contract_line` and `verify_line` have the contracts on the bytes.
#![tactic(auto)]

ghost use Rattle.std.specs.Prelude.{IfSome};
ghost use Rattle.io.specs.Counts.{IsPrefixLen};

use format::MOST_BYTES;
use line_text::LINE;
use lower_line::LOWERED_LINE;

// The longest sheet of a list: a byte more than a sheet may have, so that refusal 1 occurs.
const LONGEST: usize = MOST_BYTES + 1;

// The letter before the next sheet, and the sheet's length.
#[derive(Clone, Copy)]
struct Head {
    letter: u8,
    length: usize,
}

// There is no head at the end of the input, after a read that failed, and where the letter is 0.
fn read_head(rt: &HostRuntime) -> Option<Head> {
    let mut head = [0u8; 5];
    let n = console::read(rt, &mut head)?;
    if n < head.len() || head[0] == 0 {
        return None;
    }
    Some(Head {
        letter: head[0],
        length: reader::read(&head, 1, 4),
    })
}

// Reads n bytes to the start of `sheet`, fewer if the input ends. Where `sheet` is too short, it reads nothing.
fn read_sheet(rt: &HostRuntime, n: usize, sheet: &mut [u8]) -> Option<usize>
    ensures { IfSome result (λ n. IsPrefixLen n sheet.new) }
{
    if sheet.len() < n {
        return None;
    }
    console::read(rt, &mut sheet[..n])
}

// Prints the line of a contract sheet that is lowered. There is no answer where it cannot be printed.
fn print_lowered(rt: &HostRuntime, sheet: &[u8]) -> Option<()> {
    let mut out = [0u8; MOST_BYTES];
    let mut text = [0u8; LOWERED_LINE];
    let k = lower_line::lower_line(sheet, &mut out, &mut text);
    rt.write_all(&text[..k]).ok()
}

// Reads one sheet and prints its line, or nothing where the letter asks nothing. There is no answer where the list has ended or the line cannot
// be printed.
fn replay_one(rt: &HostRuntime) -> Option<()> {
    let head = read_head(rt)?;
    if LONGEST < head.length {
        return None;
    }
    let mut sheet = io::large_buffer();
    let n = read_sheet(rt, head.length, &mut sheet)?;
    let sheet = &sheet[..n];
    let mut text = [0u8; LINE];
    let k = match head.letter {
        b'L' => return print_lowered(rt, sheet),
        b'V' => verify_line::verify_line(sheet, &mut text),
        b'C' => lower_line::contract_line(sheet, &mut text),
        _ => return Some(()),
    };
    rt.write_all(&text[..k]).ok()
}

// A proved loop has to end, so its turns are counted.
fn main(rt: HostRuntime) {
    if !console::has_args(&rt, 0, b"replay < LIST") {
        return;
    }
    for _ in 0..u64::MAX {
        if replay_one(&rt).is_none() {
            return;
        }
    }
}
