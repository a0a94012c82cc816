// Rows compared four ways, as they run. Each line: how the first row stands to the second, how many pairs were compared, and the first two
// counts of the larger; what is printed is compared with the file stdout.
#![tactic(auto)]

use rows::{Comparison, Row};
use std::io;

fn row(a: u32, b: u32) -> Row {
    Row::ZERO.with(1, a).with(2, b)
}

// The words are this program's own: the library prints nothing.
fn word(c: Comparison) -> &'static str {
    match c {
        Comparison::Equal => "equal",
        Comparison::Below => "below",
        Comparison::Above => "above",
        Comparison::Crossed => "crossed",
    }
}

fn compare(rt: &impl Print, a: Row, b: Row, n: usize) -> io::Result<()> {
    let compared = a.compare(b, n);
    let larger = a.larger(b, n).counts;
    println!(rt;
        "{} {} {} {}",
        word(compared.answer),
        compared.pairs,
        larger[0],
        larger[1]
    )
}

// The four answers; counts that a sign would turn round.
fn two_entries(rt: &impl Print) -> io::Result<()> {
    compare(rt, row(3, 5), row(3, 5), 2)?;
    compare(rt, row(3, 5), row(4, 5), 2)?;
    compare(rt, row(3, 5), row(3, 4), 2)?;
    compare(rt, row(3, 5), row(5, 3), 2)?;
    compare(rt, row(2147483648, 0), row(2147483647, 0), 2)?;
    compare(rt, row(4294967295, 0), row(0, 4294967295), 2)
}

// Entries past n are not looked at, and more than twelve count as twelve.
fn other_lengths(rt: &impl Print) -> io::Result<()> {
    compare(rt, row(3, 5), row(5, 3), 0)?;
    compare(rt, row(3, 5), row(5, 3), 1)?;
    compare(rt, row(1, 1), row(1, 1).with(12, 7), 11)?;
    compare(rt, row(1, 1), row(1, 1).with(12, 7), 12)?;
    compare(rt, row(1, 1).with(12, 7), row(1, 2), 13)
}

fn main(rt: HostRuntime) -> io::Result<()> {
    two_entries(&rt)?;
    other_lengths(&rt)
}
