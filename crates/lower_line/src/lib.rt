// Lowering's answer as the line that is printed, and that of what it asks before its walk.
#![tactic(auto)]

ghost use Rattle.std.specs.Prelude.{◌≡◌, length};
ghost use Rattle.definitions.specs.Answers.{check_contract, lower_sheet, numbers_of, output_of, padded};
ghost use Rattle.definitions.specs.Lines.{line_of, lowered_line};
ghost use Rattle.line_text.specs.Lined.{Prefix};

use format::MOST_BYTES;
use line_text::{LINE, accepted_line, line, put_line};
use lower_numbers::{check_numbers, lower_numbers};

// The bytes of lowering's line: 3 for each byte of a sheet, and 3 for `OK` and the line feed.
pub const LOWERED_LINE: usize = 3 * MOST_BYTES + 3;

// Puts the line of what lowering asks of a contract sheet before its walk into `text`, with zeros behind it, and gives its length.
pub fn contract_line(sheet: &[u8], text: &mut [u8; LINE]) -> usize
    ensures text_after { text.new ≡ padded 128 (line_of (numbers_of (check_contract sheet.now))) }
    ensures len { result ≡ length (line_of (numbers_of (check_contract sheet.now))) }
    ensures prefix { Prefix result text.new }
{
    line(&check_numbers(sheet::check_contract(sheet)), text)
}

// Lowers a contract sheet to `out` and puts the line of the answer into `text`, with zeros behind it. Gives the line's length.
pub fn lower_line(sheet: &[u8], out: &mut [u8; MOST_BYTES], text: &mut [u8; LOWERED_LINE]) -> usize
    ensures text_after { text.new ≡ padded 98307 (lowered_line (lower_sheet sheet.now 32768)) }
    ensures len { result ≡ length (lowered_line (lower_sheet sheet.now 32768)) }
    ensures prefix { Prefix result text.new }
    ensures out_after { out.new ≡ output_of (lower_sheet sheet.now 32768) 32768 }
{
    match lower::lower(sheet, out) {
        Ok(length) => accepted_line(&out[..length], text),
        Err(refusal) => put_line(&lower_numbers(Err(refusal)), text),
    }
}
