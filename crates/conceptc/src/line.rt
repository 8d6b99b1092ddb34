//! The lines of a report, each in a buffer of its own.

ghost use Rattle.std.specs.Prelude.{◌≡◌, ◌+◌, ◌≤◌, ◌++◌, length, decimal};
ghost use Rattle.arrayvec.specs.ArrayString.{array_string_len};
ghost use Rattle.conceptc.specs.Report.{place_text, place_line, name_line};

use arrayvec::ArrayString;
use cx_base::Place;
use itoa::Buffer;

/// A line of a report. The longest takes 47 bytes.
pub type Line = ArrayString<64>;

fn push_number(line: &mut Line, number: u32)
    requires { array_string_len line.old + 10 ≤ 64 }
    ensures bytes { line.new.bytes ≡ line.old.bytes ++ decimal number }
    ensures len { array_string_len line.new ≤ array_string_len line.old + 10 }
{
    let mut buffer = Buffer::new();
    line.push_str(buffer.format(number));
}

#[tactic(auto, unfolding(crate::specs::Report::place_text))]
fn push_place(line: &mut Line, at: Place)
    requires { array_string_len line.old + 22 ≤ 64 }
    ensures { line.new.bytes ≡ line.old.bytes ++ place_text at }
{
    push_number(line, at.line);
    line.push_str(":");
    push_number(line, at.col);
    line.push_str("\n");
}

/// A word and a place.
#[tactic(auto, unfolding(crate::specs::Report::place_line))]
pub fn place_line(word: &str, at: Place) -> Line
    requires { length word.now ≤ 5 }
    ensures { result.bytes ≡ place_line word.now at }
{
    let mut line = Line::new();
    line.push_str(word);
    line.push_str(" ");
    push_place(&mut line, at);
    line
}

/// A word, a name and a place.
#[tactic(auto, unfolding(crate::specs::Report::name_line))]
pub fn name_line(word: &str, name: &str, at: Place) -> Line
    requires word { length word.now ≤ 5 }
    requires name { length name.now ≤ 18 }
    ensures { result.bytes ≡ name_line word.now name.now at }
{
    let mut line = Line::new();
    line.push_str(word);
    line.push_str(" ");
    line.push_str(name);
    line.push_str(" ");
    push_place(&mut line, at);
    line
}
