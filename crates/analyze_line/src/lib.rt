// The body check's answer as the line that is printed.
#![tactic(auto)]

ghost use Rattle.std.specs.Prelude.{◌≡◌, length};
ghost use Rattle.definitions.specs.Answers.{analyze_sheet, numbers_of, padded};
ghost use Rattle.definitions.specs.Lines.{line_of};
ghost use Rattle.line_text.specs.Lined.{Prefix};

use analyze_numbers::analyze_numbers;
use line_text::{LINE, line};

// Puts the line of the body check's answer to a contract sheet into `text`, with zeros behind it, and gives its length.
pub fn analyze_line(sheet: &[u8], text: &mut [u8; LINE]) -> usize
    ensures text_after { text.new ≡ padded 128 (line_of (numbers_of (analyze_sheet sheet.now))) }
    ensures len { result ≡ length (line_of (numbers_of (analyze_sheet sheet.now))) }
    ensures prefix { Prefix result text.new }
{
    line(&analyze_numbers(analyze::analyze(sheet)), text)
}
