// Standard input and output for the programs, and what standard error says where one of them fails.
#![tactic(auto)]

ghost use Rattle.std.specs.Prelude.{◌-◌, ◌≤◌, ◌<◌, ◌≡◌, cond, length, IfOk};

use std::io;
use std::io::Read;

// Standard input or output failed, and standard error has said so.
#[derive(Clone, Copy, Debug, PartialEq, Eq)]
pub struct Reported;

fn report(rt: &impl Eprint, stream: &str, error: io::Error) -> Reported {
    let _ = eprintln!(rt; "{stream}: {error}");
    Reported
}

// Writes bytes.
pub fn write_out(rt: &(impl Print + Eprint), bytes: &[u8]) -> Result<(), Reported> {
    rt.write_all(bytes)
        .map_err(|error| report(rt, "standard output", error))
}

// Reads once, and answers how many bytes it got: none where the input is over.
pub fn read_some(rt: &(impl io::Input + Eprint), buffer: &mut [u8]) -> Result<usize, Reported>
    ensures { IfOk result (λ got. got ≤ length buffer.new) }
{
    rt.reader()
        .read(buffer)
        .map_err(|error| report(rt, "standard input", error))
}

// A proved loop has to end, so that a program which reads until nothing more comes counts its turns down, from this number, which no run
// uses up.
pub const MOST_TURNS: u64 = u64::MAX;

// One turn fewer, or none where there is no more to read.
pub fn turns_left(turns: u64, more: bool) -> u64
    ensures { (result ≡ cond more (turns - 1) 0) × (0 < turns → result < turns) }
{
    if !more {
        return 0;
    }
    if turns == 0 {
        return 0;
    }
    turns - 1
}

// Reads until the input is over or the buffer is full, and answers how many bytes it got.
pub fn read_all(rt: &(impl io::Input + Eprint), buffer: &mut [u8]) -> Result<usize, Reported>
    ensures { IfOk result (λ length_read. length_read ≤ length buffer.new) }
{
    let mut at = 0;
    // No `for` over so many turns: that each reads at least a byte is what ends it.
    while at < buffer.len() {
        let got = read_some(rt, &mut buffer[at..])?;
        if got == 0 {
            break;
        }
        at += got;
    }
    Ok(at)
}
