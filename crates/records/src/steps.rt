// Records in table words, for the crates above: each function asks what its callers prove.
ghost use Rattle.std.specs.Prelude.{◌≡◌, cond, ltb, ◌+◌, ◌*◌, ◌≤◌, length, replicate, take, drop};
ghost use Rattle.lists.specs.Functions.{from, pasted, put};
ghost use Rattle.lists.specs.Parts.{words, replaced};
ghost use Rattle.model.specs.Table.{sound_record};
ghost use Rattle.model.specs.RecordWords.{row_of, matrix_of, value_of, matrix_word, record_size, record_of, record_words};
ghost use Rattle.rows.specs.Meaning.{row_in, matrix_in};
ghost use Rattle.records.specs.Meaning.{record_in};

use crate::Record;
use rows::Row;

// Where the value and the matrix of a record begin.
pub const VALUE_AT: usize = 4;

pub const MATRIX_AT: usize = 12;

// How many words a record has on a board of n.
#[tactic(auto, unfolding(model::specs::RecordWords::record_size))]
pub fn record_size(n: usize) -> usize
    requires { n ≤ 12 }
    ensures { result ≡ record_size n }
{
    MATRIX_AT + n * n
}

// A value is loaded and stored word by word: after `copy_from_slice` the compiler no longer knows that the table is left alone, and clears
// and copies records once more.
pub fn load_value(t: &[u32], at: usize) -> [u32; 8]
    requires { at + 8 ≤ length t.now }
    ensures { value_of (words result) ≡ value_of (from (words t.now) at) }
{
    let mut value = [0u32; 8];
    for i in 0..8 {
        value[i] = t[at + i];
    }
    value
}

// Count i of a row of n, from 0 on; zero past the first n.
fn count_at(t: &[u32], at: usize, n: usize, i: usize) -> u32
    requires { at + n ≤ length t.now }
    ensures { result ≡ cond (ltb i n) (words t.now (at + i)) 0 }
{
    if i < n { t[at + i] } else { 0 }
}

// All twelve counts in turn: a loop of n rounds is compiled to a call of memcpy, which costs more than these few words.
pub fn load_row(t: &[u32], at: usize, n: usize) -> Row
    requires { (n ≤ 12) × (at + n ≤ length t.now) }
    ensures { row_in result ≡ row_of n (from (words t.now) at) }
{
    let mut row = Row::ZERO;
    for i in 0..12 {
        row.counts[i] = count_at(t, at, n, i);
    }
    row
}

pub fn load_matrix(t: &[u32], at: usize, n: usize) -> [Row; 12]
    requires { (n ≤ 12) × (at + n * n ≤ length t.now) }
    ensures { matrix_in result ≡ matrix_of n (from (words t.now) at) }
{
    let mut matrix = [Row::ZERO; 12];
    for j in 0..n {
        matrix[j] = load_row(t, at + j * n, n);
    }
    matrix
}

// The record in the words from `at` on.
#[tactic(auto, unfolding(model::specs::RecordWords::record_size))]
pub fn load_record(t: &[u32], at: usize, n: usize) -> Record
    requires { (n ≤ 12) × (at + record_size n ≤ length t.now) }
    ensures { record_in result ≡ record_of n (from (words t.now) at) }
{
    let value = load_value(t, at + VALUE_AT);
    let matrix = load_matrix(t, at + MATRIX_AT, n);
    Record {
        member: t[at],
        slot: t[at + 1],
        operation: t[at + 2],
        count: t[at + 3],
        value,
        matrix,
    }
}

pub fn store_value(t: &mut [u32], at: usize, value: [u32; 8])
    requires { at + 8 ≤ length t.old }
    ensures { words t.new ≡ pasted at 8 (words value) (words t.old) }
{
    for i in 0..8 {
        t[at + i] = value[i];
    }
}

// Count i of a row of n stored; those past the first n are not.
#[tactic(auto, using(lists::proofs::Parts::words_set))]
fn store_count(t: &mut [u32], at: usize, n: usize, i: usize, count: u32)
    requires { at + n ≤ length t.old }
    ensures { words t.new ≡ cond (ltb i n) (put (words t.old) (at + i) count) (words t.old) }
{
    if i < n {
        t[at + i] = count;
    }
}

fn store_row(t: &mut [u32], at: usize, n: usize, row: Row)
    requires { (n ≤ 12) × (at + n ≤ length t.old) }
    ensures { words t.new ≡ pasted at n (words row.counts) (words t.old) }
{
    for i in 0..12 {
        store_count(t, at, n, i, row.counts[i]);
    }
}

fn store_matrix(t: &mut [u32], at: usize, n: usize, matrix: [Row; 12])
    requires { (n ≤ 12) × (at + n * n ≤ length t.old) }
    ensures { words t.new ≡ pasted at (n * n) (matrix_word n (matrix_in matrix)) (words t.old) }
{
    for j in 0..n {
        store_row(t, at + j * n, n, matrix[j]);
    }
}

// The record written to the words from `at` on. Always inlined: a record handed on by value is copied once more for a call.
#[tactic(auto, unfolding(model::specs::RecordWords::record_size))]
#[inline(always)]
pub fn store_record(t: &mut [u32], at: usize, n: usize, r: Record)
    requires { (n ≤ 12) × (at + record_size n ≤ length t.old) }
    ensures { t.new ≡ replaced t.old at (record_words n (record_in r)) }
{
    t[at] = r.member;
    t[at + 1] = r.slot;
    t[at + 2] = r.operation;
    t[at + 3] = r.count;
    let value = r.value;
    store_value(t, at + VALUE_AT, value);
    let matrix = r.matrix;
    store_matrix(t, at + MATRIX_AT, n, matrix);
}

// `count` words copied down, from `source` on to `at` on: `at` is not above `source`, so the two runs may overlap. A loop and not
// `copy_within`, which copies up as well: must-fail/copy_up.edit holds that this function's callers have to copy down.
pub fn copy_down(t: &mut [u32], at: usize, source: usize, count: usize)
    requires { (at ≤ source) × (source + count ≤ length t.old) }
    ensures { t.new ≡ replaced t.old at (take count (drop source t.old)) }
{
    for i in 0..count {
        t[at + i] = t[source + i];
    }
}

// `count` words from `at` on set to zero.
pub fn clear(t: &mut [u32], at: usize, count: usize)
    requires { at + count ≤ length t.old }
    ensures { t.new ≡ replaced t.old at (replicate count 0) }
{
    t[at..at + count].fill(0);
}

// Are member, slot and type of the record at `at` in range? 0 is, too.
#[tactic(auto, unfolding(model::specs::Table::sound_record, model::specs::RecordWords::record_of, lists::specs::Functions::from))]
pub fn sound_record(t: &[u32], at: usize, n: u32) -> bool
    requires { at + 3 ≤ length t.now }
    ensures { result ≡ sound_record n (record_of n (from (words t.now) at)) }
{
    t[at] <= n && t[at + 1] <= n && t[at + 2] <= 2
}
