// The text of a line: numbers in decimal digits, bytes in hexadecimal ones, and zeros behind it.
#![tactic(auto)]

ghost use Rattle.std.specs.Prelude.{◌≡◌, ◌+◌, ◌*◌, ◌≤◌, ◌<◌, length};
ghost use Rattle.definitions.specs.Result.{ok};
ghost use Rattle.definitions.specs.Answers.{padded};
ghost use Rattle.definitions.specs.Lines.{hex_digit, hexed, line_of, lowered_line};
ghost use Rattle.line_text.specs.Lined.{Begins, Lined, Prefix};

use digits::put_digits;
use numbers::Numbers;
use writer::clear;

const SPACE: u8 = b' ';

const LINE_FEED: u8 = b'\n';

// The bytes that a line of numbers is put into, 126 of which six numbers can take.
pub const LINE: usize = 128;

// Puts the line of the numbers at the start of `text`: in decimal, separated by single spaces, or `OK` if there are none. Gives the line's length.
fn put_numbers(numbers: &[usize], text: &mut [u8]) -> usize
    requires { (length numbers.now ≤ 6) × (128 ≤ length text.old) }
    ensures { Begins (line_of numbers.now) text.old text.new result }
{
    let Some((first, details)) = numbers.split_first() else {
        text[..3].copy_from_slice(b"OK\n");
        return 3;
    };
    let mut at = put_digits(text, 0, digits::MOST_DIGITS, *first);
    for detail in details {
        text[at] = SPACE;
        at = put_digits(text, at + 1, digits::MOST_DIGITS, *detail);
    }
    text[at] = LINE_FEED;
    at + 1
}

// The same, with zeros behind it.
pub fn put_line(numbers: &Numbers, text: &mut [u8]) -> usize
    requires { 128 ≤ length text.old }
    ensures { Lined (length text.old) (line_of numbers.now) text.new result }
{
    let end = put_numbers(numbers.as_slice(), text);
    clear(text, end);
    end
}

// Puts the line of the numbers into `text`, with zeros behind it, and gives its length. It is `OK` if there are none.
pub fn line(numbers: &Numbers, text: &mut [u8; LINE]) -> usize
    ensures text_after { text.new ≡ padded 128 (line_of numbers.now) }
    ensures len { result ≡ length (line_of numbers.now) }
    ensures prefix { Prefix result text.new }
{
    put_line(numbers, text)
}

// A hexadecimal digit. `hex` prints into a slice only the small letters.
fn hex_digit(d: u8) -> u8
    requires { d < 16 }
    ensures { result ≡ hex_digit d }
{
    if d < 10 { b'0' + d } else { b'A' - 10 + d }
}

// Puts each byte as a space and two digits.
fn put_hex(bytes: &[u8], text: &mut [u8])
    requires { length text.old ≡ 3 * length bytes.now }
    ensures { text.new ≡ hexed bytes.now }
{
    for (i, byte) in bytes.iter().enumerate() {
        text[3 * i..3 * i + 3].copy_from_slice(&[
            SPACE,
            hex_digit(byte / 16),
            hex_digit(byte % 16),
        ]);
    }
}

// Puts the line of a sheet into `text`, with zeros behind it, and gives its length.
pub fn accepted_line(sheet: &[u8], text: &mut [u8]) -> usize
    requires { 3 + 3 * length sheet.now ≤ length text.old }
    ensures { Lined (length text.old) (lowered_line (ok sheet.now)) text.new result }
{
    let end = 2 + 3 * sheet.len();
    text[..2].copy_from_slice(b"OK");
    put_hex(sheet, &mut text[2..end]);
    text[end] = LINE_FEED;
    clear(text, end + 1);
    end + 1
}
