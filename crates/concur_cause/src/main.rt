// The step that cost my operation: the member and the ordinal as arguments, a script from standard input, and one line to standard output.
#![tactic(auto)]

use cause::steps::answer;
use script_run::MOST_WORDS;
use tool_input::run_tool;

// As for an overtaker: what the two tools share is `run_tool`, and each hands over its own answer.
fn main(rt: HostRuntime) {
    let mut table = [0; MOST_WORDS];
    // Where reading or writing fails, standard error has said so, and the exit status is 0 then too.
    let _ = run_tool(
        &rt,
        |script, asked, out| answer(script, &mut table, asked, out),
    );
}
