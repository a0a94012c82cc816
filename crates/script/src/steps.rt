// Lines printed, for the program: each function asks for the room that it needs, writes from `at` on, and returns the place behind.
// `Display` is no use here: what it writes no proof can name, and each contract says which bytes stand in the output.
ghost use Rattle.std.specs.Prelude.{◌≡◌, ◌+◌, ◌%◌, ◌≤◌, ◌++◌, length};
ghost use Rattle.std.proofs.Math.Option.{some};
ghost use Rattle.model.specs.Script.{digit_zero, space, line_feed, digits, field, printed_line, board_line, refused_line};
ghost use Rattle.script.specs.Meaning.{given, Printed};

// The last digit of a number.
fn last_digit(x: u32) -> u8
    ensures { result ≡ digit_zero + x % 10 }
{
    b'0' + (x % 10) as u8
}

// The digits of a number: those of its tenth, and the last.
pub fn print_number(out: &mut [u8], at: usize, x: u32) -> usize
    requires { at + length (digits x) ≤ length out.old }
    ensures { Printed out.old out.new at (digits x) result }
{
    let last = if 10 <= x {
        print_number(out, at, x / 10)
    } else {
        at
    };
    out[last] = last_digit(x);
    last + 1
}

// Bytes as they are.
pub fn print_bytes(out: &mut [u8], at: usize, text: &[u8]) -> usize
    requires { at + length text.now ≤ length out.old }
    ensures { Printed out.old out.new at text.now result }
{
    let next = at + text.len();
    out[at..next].copy_from_slice(text);
    next
}

// A number, or `-` where there is none, and the byte behind it.
pub fn print_field(out: &mut [u8], at: usize, x: Option<u32>, end: u8) -> usize
    requires { at + length (field (given x) end) ≤ length out.old }
    ensures { Printed out.old out.new at (field (given x) end) result }
{
    let Some(x) = x else {
        return print_bytes(out, at, &[b'-', end]);
    };
    let next = print_number(out, at, x);
    out[next] = end;
    next + 1
}

// Two numbers on a line.
pub fn print_pair(out: &mut [u8], at: usize, x: u32, y: u32) -> usize
    requires { at + length (field (some x) space ++ field (some y) line_feed) ≤ length out.old }
    ensures { Printed out.old out.new at (field (some x) space ++ field (some y) line_feed) result }
{
    let next = print_field(out, at, Some(x), b' ');
    print_field(out, next, Some(y), b'\n')
}

// The line of a step.
pub fn print_line(
    out: &mut [u8],
    at: usize,
    step: u32,
    answer: u32,
    phase: Option<u32>,
    value: Option<u32>,
) -> usize
    requires { at + length (printed_line step answer (given phase) (given value)) ≤ length out.old }
    ensures { Printed out.old out.new at (printed_line step answer (given phase) (given value)) result }
{
    let second = print_field(out, at, Some(step), b' ');
    let third = print_field(out, second, Some(answer), b' ');
    let fourth = print_field(out, third, phase, b' ');
    print_field(out, fourth, value, b'\n')
}

// A word, a number and the end of the line.
fn print_worded(out: &mut [u8], at: usize, word: &[u8], x: u32) -> usize
    requires { at + length (word.now ++ field (some x) line_feed) ≤ length out.old }
    ensures { Printed out.old out.new at (word.now ++ field (some x) line_feed) result }
{
    let next = print_bytes(out, at, word);
    print_field(out, next, Some(x), b'\n')
}

// The first line: the board's n.
#[tactic(auto, unfolding(model::specs::Script::board_line))]
pub fn print_board(out: &mut [u8], at: usize, n: u32) -> usize
    requires { at + length (board_line n) ≤ length out.old }
    ensures { Printed out.old out.new at (board_line n) result }
{
    print_worded(out, at, b"board ", n)
}

// The one line where the first line of the script was refused.
#[tactic(auto, unfolding(model::specs::Script::refused_line))]
pub fn print_refused(out: &mut [u8], at: usize, number: u32) -> usize
    requires { at + length (refused_line number) ≤ length out.old }
    ensures { Printed out.old out.new at (refused_line number) result }
{
    print_worded(out, at, b"board refused ", number)
}
