// Texts as bytes; numbers in decimal put behind a text that has room for them.
#![tactic(auto)]

ghost use Rattle.std.specs.Prelude.{◌≡◌, ◌+◌, ◌++◌, ◌≤◌, length};
ghost use Rattle.texts.specs.Text.{text, spaced, line_end};

use arrayvec::ArrayString;

// Puts a number in decimal behind a text.
pub fn push_digits<const N: usize>(line: &mut ArrayString<N>, number: u64)
    requires { length line.old.bytes + 20 ≤ N }
    ensures text { line.new.bytes ≡ line.old.bytes ++ text number }
    ensures upper_bound { length line.new.bytes ≤ length line.old.bytes + 20 }
{
    line.push_str(itoa::Buffer::new().format(number));
}

// The same with a space before it.
pub fn push_number<const N: usize>(line: &mut ArrayString<N>, number: u64)
    requires { length line.old.bytes + 21 ≤ N }
    ensures text { line.new.bytes ≡ line.old.bytes ++ spaced (text number) }
    ensures upper_bound { length line.new.bytes ≤ length line.old.bytes + 21 }
{
    line.push_str(" ");
    push_digits(line, number);
}

// The same with the line's end behind it.
pub fn push_last<const N: usize>(line: &mut ArrayString<N>, number: u64)
    requires { length line.old.bytes + 22 ≤ N }
    ensures text { line.new.bytes ≡ line.old.bytes ++ (spaced (text number) ++ line_end) }
    ensures upper_bound { length line.new.bytes ≤ length line.old.bytes + 22 }
{
    push_number(line, number);
    line.push_str("\n");
}
