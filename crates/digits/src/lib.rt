// A number in decimal digits, as bytes of any slice.
#![tactic(auto)]

ghost use Rattle.std.specs.Prelude.{◌+◌, ◌≤◌, length};
ghost use Rattle.digits.specs.Digits.{DigitsPut};

use itoa::Buffer;

// The most digits of a number of 64 bits.
pub const MOST_DIGITS: usize = 20;

// Puts the last `most` digits of v at a place of `out`, and gives the place behind them. What stands from there on is left as it is.
pub fn put_digits(out: &mut [u8], at: usize, most: usize, v: usize) -> usize
    requires { at + most ≤ length out.old }
    ensures { DigitsPut most v out.old at out.new result }
{
    let mut buffer = Buffer::new();
    let all = buffer.format(v).as_bytes();
    let last = &all[all.len().saturating_sub(most)..];
    let end = at + last.len();
    out[at..end].copy_from_slice(last);
    end
}
