// What the programs that ask about one operation read: the member and the ordinal as arguments, and a script from standard input.
#![tactic(auto)]

ghost use Rattle.std.specs.Prelude.{◌≡◌, ◌≤◌, length, None, Ok, IfOk};
ghost use Rattle.overtaker.specs.Meaning.{longest_answer};
ghost use Rattle.tool_input.specs.Meaning.{Held};

use overtaker::{Asked, LONGEST_ANSWER};
use std::env::{Env, FillError};
use std::io;
use streams::{Reported, read_all, write_out};

// Longer than any number: an argument that does not fit is none.
const LONGEST_ARGUMENT: usize = 16;

// How many arguments there are behind the program's own name. They are asked for one by one: `env::args` keeps them on the heap.
fn argument_count(rt: &impl Env) -> usize {
    let mut last = [0u8; LONGEST_ARGUMENT];
    for i in 1..usize::MAX {
        if matches!(rt.arg(i, &mut last), Err(FillError::NotPresent)) {
            return i - 1;
        }
    }
    usize::MAX
}

// An argument's bytes at the front of the buffer, and how many they are: none where it is missing or longer than the buffer.
fn read_argument(rt: &impl Env, i: usize, buffer: &mut [u8]) -> usize
    ensures { result ≤ length buffer.new }
{
    rt.arg(i, buffer).unwrap_or(0)
}

// What they ask for. Which bytes they are, no contract can say.
pub fn read_arguments(rt: &impl Env) -> Option<Asked>
    ensures { Held result }
{
    let mut first = [0u8; LONGEST_ARGUMENT];
    let mut second = [0u8; LONGEST_ARGUMENT];
    let a = read_argument(rt, 1, &mut first);
    let b = read_argument(rt, 2, &mut second);
    Asked::read(argument_count(rt), &first[..a], &second[..b])
}

// The script, and how many bytes it is. Nothing is read where the arguments ask for no operation.
pub fn read_script(
    rt: &(impl io::Input + Eprint),
    asked: Option<Asked>,
    input: &mut [u8],
) -> Result<usize, Reported>
    ensures length_in_bounds { IfOk result (λ got. got ≤ length input.new) }
    ensures ok_value { asked ≡ None → (result ≡ Ok 0) × (input.new ≡ input.old) }
{
    if asked.is_none() {
        return Ok(0);
    }
    read_all(rt, input)
}

// A buffer of one byte more than a script may have tells one that is too long.
const BUFFER: usize = 65536;

// What a tool that asks about one operation does: it reads the arguments and the script, and writes the answer, which is no longer than an
// overtaker's. Nothing is printed where reading fails.
pub fn run_tool<F: FnOnce(&[u8], Option<Asked>, &mut [u8; LONGEST_ANSWER]) -> usize>(
    rt: &(impl Env + io::Input + Print + Eprint),
    answer: F,
) -> Result<(), Reported>
    requires callable { F.IsAlwaysCallable answer }
    requires fits { (s : _) (a : _) (o : _) (n : _) (p : _) → F.post answer s a o n p → n ≤ longest_answer }
{
    let asked = read_arguments(rt);
    let mut input = [0; BUFFER];
    let length = read_script(rt, asked, &mut input)?;
    let mut out = [0; LONGEST_ANSWER];
    let end = answer(&input[..length], asked, &mut out);
    write_out(rt, &out[..end])
}
