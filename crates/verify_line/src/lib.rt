// The verifier's answer as the line that is printed.
#![tactic(auto)]

ghost use Rattle.std.specs.Prelude.{◌≡◌, length};
ghost use Rattle.definitions.specs.Answers.{numbers_of, padded, verify_sheet};
ghost use Rattle.definitions.specs.Lines.{line_of};
ghost use Rattle.line_text.specs.Lined.{Prefix};

use line_text::{LINE, line};
use verify_numbers::verify_numbers;

// Puts the line of the verifier's answer to a program sheet into `text`, with zeros behind it, and gives its length.
pub fn verify_line(sheet: &[u8], text: &mut [u8; LINE]) -> usize
    ensures text_after { text.new ≡ padded 128 (line_of (numbers_of (verify_sheet sheet.now))) }
    ensures len { result ≡ length (line_of (numbers_of (verify_sheet sheet.now))) }
    ensures prefix { Prefix result text.new }
{
    line(&verify_numbers(verify::verify(sheet)), text)
}
