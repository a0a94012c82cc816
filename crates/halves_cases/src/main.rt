// The cases P9, P10 and P11 of document 01, an auction gateway's begin and an own read (document 02, (b) and (a)) on the two halves as they
// run, and the pairs that a reply's checks look at; what is printed is compared with the file stdout.
#![tactic(auto)]

use host::{Reply, Verdict};
use records::Record;
use rows::Row;
use rules::Refusal;
use std::io;

// A line of three numbers.
fn line(rt: &impl Print, a: u32, b: u32, c: u32) -> io::Result<()> {
    println!(rt; "{a} {b} {c}")
}

// What a call is answered by number: 0 where it was done.
fn number<T>(outcome: &Result<T, Refusal>) -> u32 {
    match outcome {
        Ok(_) => 0,
        Err(refusal) => refusal.number(),
    }
}

// The outcome of a commit: 1 accepted, 2 aborted, and 0 where it was refused.
fn outcome(verdict: Result<Verdict, Refusal>) -> u32 {
    match verdict {
        Ok(verdict) => verdict.number(),
        Err(_) => 0,
    }
}

// P9: own count 4,294,967,294 begins; once idle again, 9. Each line: the answer, the phase, the own count.
fn p9(rt: &impl Print) -> io::Result<()> {
    let mut block = [0u32; 61];
    block[5] = 4294967294;
    let begun = member::begin(&mut block, 2, 1, 1, 2, [0; 8]);
    line(rt, number(&begun), block[0], block[5])?;
    let replied = member::take_reply(&mut block, 2, 1, Record::opening(1), Record::opening(1), 3);
    line(rt, number(&replied), block[0], block[5])?;
    let ended = member::take_outcome(&mut block, 2, 1, 2);
    line(rt, number(&ended), block[0], block[5])?;
    let again = member::begin(&mut block, 2, 1, 1, 2, [0; 8]);
    line(rt, number(&again), block[0], block[5])
}

// An auction board's limit: own count 9,998 begins; idle again, 9, and so above it. The common begin goes on.
fn auction_limit(rt: &impl Print) -> io::Result<()> {
    let mut block = [0u32; 61];
    block[5] = 9998;
    let begun = member::auction::begin(&mut block, 2, 1, 1, 2, [0; 8]);
    line(rt, number(&begun), block[0], block[5])?;
    block[0] = 0;
    let again = member::auction::begin(&mut block, 2, 1, 1, 2, [0; 8]);
    line(rt, number(&again), block[0], block[5])?;
    block[5] = 10000;
    let above = member::auction::begin(&mut block, 2, 1, 1, 2, [0; 8]);
    line(rt, number(&above), block[0], block[5])?;
    let common = member::begin(&mut block, 2, 1, 1, 2, [0; 8]);
    line(rt, number(&common), block[0], block[5])
}

// Five members: 1, before there is no such member, but after the block's length and its words; the common begin answers 4 there.
fn auction_of_five(rt: &impl Print) -> io::Result<()> {
    let mut block = [0u32; 130];
    let five = member::auction::begin(&mut block, 5, 1, 1, 2, [0; 8]);
    line(rt, number(&five), block[0], block[5])?;
    let sixth = member::auction::begin(&mut block, 5, 6, 1, 2, [0; 8]);
    line(rt, number(&sixth), block[0], block[5])?;
    let common = member::begin(&mut block, 5, 6, 1, 2, [0; 8]);
    line(rt, number(&common), block[0], block[5])?;
    let mut part = [0u32; 129];
    let short = member::auction::begin(&mut part, 5, 1, 1, 2, [0; 8]);
    line(rt, number(&short), part[0], part[5])?;
    block[0] = 7;
    let damaged = member::auction::begin(&mut block, 5, 1, 1, 2, [0; 8]);
    line(rt, number(&damaged), block[0], block[5])
}

// P10: a crash in phase 3: the host still takes the commit and accepts it, the member takes no outcome.
fn p10(rt: &impl Print) -> io::Result<()> {
    let mut block = [0u32; 61];
    let mut entries = [0u32; 68];
    entries[2] = 1;
    entries[3] = 1;
    entries[4] = 2;
    entries[18] = 1;
    entries[19] = 1;
    entries[20] = 2;
    let begun = member::begin(&mut block, 2, 1, 1, 2, [0, 0, 0, 0, 0, 0, 0, 77]);
    line(rt, number(&begun), block[0], block[5])?;
    let reply = host::take_submit(&mut entries, 2, 1, 1, 2, 1);
    line(rt, number(&reply), entries[0], entries[1])?;
    let Ok(Reply { newest, stored }) = reply else {
        return Ok(());
    };
    let replied = member::take_reply(&mut block, 2, 1, newest, stored, 3);
    line(rt, number(&replied), block[0], block[41])?;
    let crashed = member::crash(&mut block, 2, 1);
    line(rt, number(&crashed), block[0], block[1])?;
    let row = Row::ZERO.with(1, 1);
    let mut matrix = [Row::ZERO; 12];
    matrix[0] = row;
    let commit = Record {
        member: 1,
        slot: 1,
        operation: 2,
        count: 1,
        value: [0, 0, 0, 0, 0, 0, 0, 77],
        matrix,
    };
    let verdict = host::take_commit(&mut entries, 2, commit);
    line(rt, number(&verdict), outcome(verdict), entries[13])?;
    let ended = member::take_outcome(&mut block, 2, 1, 1);
    line(rt, number(&ended), block[0], block[1])
}

// P11: member 1 reading slot 2, known row 2 (0,2), newest (0,1): halt 22. Each line: the answer, the phase, the halt number.
fn p11(rt: &impl Print) -> io::Result<()> {
    let mut block = [0u32; 61];
    block[28] = 2;
    let begun = member::begin(&mut block, 2, 1, 2, 1, [0; 8]);
    line(rt, number(&begun), block[0], block[2])?;
    let mut newest = Record::opening(2);
    newest.matrix[1] = Row::ZERO.with(2, 1);
    let replied = member::take_reply(&mut block, 2, 1, newest, Record::opening(2), 3);
    line(rt, number(&replied), block[0], block[2])
}

// The entries of a board of 2 after member 1's first operation, a write of 77: it is slot 1's stored and newest record.
fn written() -> [u32; 68] {
    let mut entries = [0u32; 68];
    entries[2] = 1;
    entries[3] = 1;
    entries[4] = 2;
    entries[5] = 1;
    entries[13] = 77;
    entries[14] = 1;
    entries[18] = 1;
    entries[19] = 1;
    entries[20] = 2;
    entries[21] = 1;
    entries[29] = 77;
    entries[30] = 1;
    entries
}

// Then member 1 reads its own slot: the read carries 77, returns 77 and becomes the stored record, with its count and row. A write to
// another's slot is 7, of the host and of the member.
fn own_read(rt: &impl Print) -> io::Result<()> {
    let mut entries = written();
    let mut block = [0u32; 61];
    block[5] = 1;
    block[7] = 1;
    block[16] = 77;
    block[25] = 1;
    let begun = member::begin(&mut block, 2, 1, 1, 1, [0; 8]);
    line(rt, number(&begun), block[0], block[24])?;
    let reply = host::take_submit(&mut entries, 2, 1, 1, 1, 2);
    line(rt, number(&reply), entries[0], entries[1])?;
    let Ok(Reply { newest, stored }) = reply else {
        return Ok(());
    };
    let replied = member::take_reply(&mut block, 2, 1, newest, stored, 3);
    line(rt, number(&replied), block[0], block[41])?;
    let row = Row::ZERO.with(1, 2);
    let mut matrix = [Row::ZERO; 12];
    matrix[0] = row;
    let commit = Record {
        member: 1,
        slot: 1,
        operation: 1,
        count: 2,
        value: [0, 0, 0, 0, 0, 0, 0, 77],
        matrix,
    };
    let verdict = host::take_commit(&mut entries, 2, commit);
    line(rt, number(&verdict), outcome(verdict), entries[4])?;
    line(rt, entries[5], entries[13], entries[14])?;
    let ended = member::take_outcome(&mut block, 2, 1, 1);
    let value = match ended {
        Ok(Some(value)) => value,
        _ => [0; 8],
    };
    line(rt, number(&ended), block[0], value[7])?;
    let stray = host::take_submit(&mut entries, 2, 2, 1, 2, 1);
    line(rt, number(&stray), entries[0], entries[1])?;
    let refused = member::begin(&mut block, 2, 1, 2, 2, [0; 8]);
    line(rt, number(&refused), block[0], block[6])
}

// Member 2 of 3, which reads slot 1, takes a reply: the answer, the halt number, the pairs looked at.
fn looks(
    rt: &impl Print,
    given: [u32; 78],
    newest: Record,
    stored: Record,
    seals: u32,
) -> io::Result<()> {
    let mut block = given;
    let _ = member::begin(&mut block, 3, 2, 1, 1, [0; 8]);
    let replied = member::take_reply(&mut block, 3, 2, newest, stored, seals);
    line(rt, number(&replied), block[2], replied.unwrap_or(0))
}

// A record of slot 1 by a member, with its three rows.
fn record(member: u32, first: Row, second: Row, third: Row) -> Record {
    let mut r = Record::opening(1);
    r.member = member;
    r.matrix[0] = first;
    r.matrix[1] = second;
    r.matrix[2] = third;
    r
}

// A reply that passes; 21, and a call that is refused; then 22, 23 and 24. Known row 1, the slot's, stands from word 27 on.
fn slot_pairs(rt: &impl Print) -> io::Result<()> {
    let zero = Row::ZERO;
    let none = Record::opening(1);
    let mut known = [0u32; 78];
    looks(rt, known, none, none, 3)?;
    looks(rt, known, none, none, 2)?;
    looks(rt, known, none, none, 4)?;
    known[27] = 1;
    looks(rt, known, none, none, 3)?;
    known[27] = 0;
    known[28] = 5;
    known[29] = 1;
    looks(rt, known, none, none, 3)?;
    looks(rt, [0; 78], record(1, zero.with(2, 1), zero, zero), none, 3)?;
    looks(rt, [0; 78], none, record(3, zero, zero, zero), 3)
}

// 25 in row 1, 2 and 3, and at 1 in row 1 alone.
fn stored_pairs(rt: &impl Print) -> io::Result<()> {
    let zero = Row::ZERO;
    let none = Record::opening(1);
    looks(rt, [0; 78], none, record(1, zero.with(3, 1), zero, zero), 3)?;
    looks(rt, [0; 78], none, record(1, zero, zero.with(1, 1), zero), 3)?;
    looks(rt, [0; 78], none, record(1, zero, zero, zero.with(1, 1)), 3)?;
    looks(rt, [0; 78], record(1, zero.with(1, 1), zero, zero), none, 3)
}

// 26, then 27, in row 2 and in row 3; known row 2 stands from word 30 on, row 3 from word 33.
fn other_pairs(rt: &impl Print) -> io::Result<()> {
    let zero = Row::ZERO;
    let none = Record::opening(1);
    let mut known = [0u32; 78];
    known[30] = 1;
    looks(rt, known, record(1, zero, zero.with(3, 1), zero), none, 3)?;
    known[30] = 0;
    known[33] = 1;
    looks(rt, known, record(1, zero, zero, zero.with(3, 1)), none, 3)?;
    looks(rt, [0; 78], record(1, zero, zero.with(2, 1), zero), none, 3)?;
    looks(rt, [0; 78], record(1, zero, zero, zero.with(2, 1)), none, 3)
}

fn main(rt: HostRuntime) -> io::Result<()> {
    p9(&rt)?;
    auction_limit(&rt)?;
    auction_of_five(&rt)?;
    p10(&rt)?;
    p11(&rt)?;
    own_read(&rt)?;
    slot_pairs(&rt)?;
    stored_pairs(&rt)?;
    other_pairs(&rt)
}
