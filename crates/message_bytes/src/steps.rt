// Where a message's parts stand in its bytes, and numbers and records there, big-endian. Each function asks what its callers prove.
ghost use Rattle.std.specs.Prelude.{◌≡◌, ◌+◌, ◌*◌, ◌≤◌, length};
ghost use Rattle.lists.specs.Functions.{from, pasted};
ghost use Rattle.lists.specs.Parts.{words};
ghost use Rattle.model.specs.RecordWords.{row_of, matrix_of, value_of, matrix_word, record_words};
ghost use Rattle.model.specs.Messages.{record_length, record_at, number_bytes, number_of, byte_in, number_in, record_byte, record_from};
ghost use Rattle.rows.specs.Meaning.{row_in, matrix_in};
ghost use Rattle.records.specs.Meaning.{record_in};
ghost use Rattle.message_bytes.specs.Needs.{InBytes};

use records::Record;
use rows::Row;

// The lengths of what a message holds, in bytes. Every length and every place of a message is put together from them.

// The length field, and the header that it counts: version and kind.
pub const FRAME_LENGTH: usize = 2;

pub const HEADER_LENGTH: usize = 2;

// The n of a reply and of a commit.
pub const N_LENGTH: usize = 1;

// A count, and each number of a value and of a matrix.
pub const NUMBER_LENGTH: usize = 4;

// How many parts of a record are a byte each; these and the count; the value.
const BYTE_PARTS: usize = 3;

const HEAD_LENGTH: usize = BYTE_PARTS + NUMBER_LENGTH;

const VALUE_LENGTH: usize = 8 * NUMBER_LENGTH;

// Where the count, the value and the matrix of a record begin.
const COUNT_AT: usize = BYTE_PARTS;

const VALUE_AT: usize = HEAD_LENGTH;

const MATRIX_AT: usize = HEAD_LENGTH + VALUE_LENGTH;

// Where the fields of a message begin, and the record of one that has it.
pub const FIELDS_AT: usize = FRAME_LENGTH + HEADER_LENGTH;

pub const RECORD_AT: usize = FIELDS_AT + N_LENGTH;

// The length of a record.
#[tactic(auto, unfolding(model::specs::Messages::record_length))]
pub fn record_length(n: usize) -> usize
    requires { n ≤ 12 }
    ensures { result ≡ record_length n }
{
    HEAD_LENGTH + VALUE_LENGTH + NUMBER_LENGTH * (n * n)
}

// Where the second record of a reply begins.
#[tactic(auto, unfolding(model::specs::Messages::record_length), using(laws::proofs::Records::square_small))]
pub fn second_at(n: usize) -> usize
    requires { n ≤ 12 }
    ensures { result ≡ record_at + record_length n }
{
    RECORD_AT + record_length(n)
}

pub fn wide(x: u8) -> u32
    ensures { result ≡ x }
{
    u32::from(x)
}

#[tactic(auto, unfolding(model::specs::Messages::number_of, lists::specs::Functions::from))]
pub fn read_number(s: &[u8], at: usize) -> u32
    requires { at + 4 ≤ length s.now }
    ensures { result ≡ number_of (from (words s.now) at) }
{
    u32::from_be_bytes([s[at], s[at + 1], s[at + 2], s[at + 3]])
}

fn read_value(s: &[u8], at: usize) -> [u32; 8]
    requires { at + 32 ≤ length s.now }
    ensures { value_of (words result) ≡ value_of (number_in (from (words s.now) at)) }
{
    let mut value = [0u32; 8];
    for i in 0..8 {
        value[i] = read_number(s, at + i * 4);
    }
    value
}

// Number i of the n from `at` on, and 0 past them.
#[tactic(auto, unfolding(lists::specs::Functions::pasted), using(laws::proofs::Messages::number_in_at))]
fn count_at(s: &[u8], at: usize, n: usize, i: usize) -> u32
    requires { (n ≤ 12) × (at + n * 4 ≤ length s.now) }
    ensures { result ≡ pasted 0 n (number_in (from (words s.now) at)) (λ k. 0) i }
{
    if i < n { read_number(s, at + i * 4) } else { 0 }
}

// All twelve counts are named, for speed: a row that a loop fills in memory is copied twice on its way into the matrix.
fn read_row(s: &[u8], at: usize, n: usize) -> Row
    requires { (n ≤ 12) × (at + n * 4 ≤ length s.now) }
    ensures { row_in result ≡ row_of n (number_in (from (words s.now) at)) }
{
    let counts = [
        count_at(s, at, n, 0),
        count_at(s, at, n, 1),
        count_at(s, at, n, 2),
        count_at(s, at, n, 3),
        count_at(s, at, n, 4),
        count_at(s, at, n, 5),
        count_at(s, at, n, 6),
        count_at(s, at, n, 7),
        count_at(s, at, n, 8),
        count_at(s, at, n, 9),
        count_at(s, at, n, 10),
        count_at(s, at, n, 11),
    ];
    Row { counts }
}

fn read_matrix(s: &[u8], at: usize, n: usize) -> [Row; 12]
    requires { (n ≤ 12) × (at + n * n * 4 ≤ length s.now) }
    ensures { matrix_in result ≡ matrix_of n (number_in (from (words s.now) at)) }
{
    let mut matrix = [Row::ZERO; 12];
    for j in 0..n {
        matrix[j] = read_row(s, at + j * n * 4, n);
    }
    matrix
}

// The record in the bytes from `at` on. The matrix is read first: its loop would part the loads of the others from their use. Inline, for
// speed: a record that a call hands back is set to zero before, and copied once more.
#[tactic(auto, unfolding(model::specs::Messages::record_length))]
#[inline(always)]
pub fn read_record(s: &[u8], at: usize, n: usize) -> Record
    requires { (n ≤ 12) × (at + record_length n ≤ length s.now) }
    ensures { record_in result ≡ record_from n (from (words s.now) at) }
{
    let matrix = read_matrix(s, at + MATRIX_AT, n);
    let value = read_value(s, at + VALUE_AT);
    let count = read_number(s, at + COUNT_AT);
    Record {
        member: wide(s[at]),
        slot: wide(s[at + 1]),
        operation: wide(s[at + 2]),
        count,
        value,
        matrix,
    }
}

#[tactic(auto, unfolding(model::specs::Messages::number_bytes), using(lists::proofs::Parts::words_replaced))]
pub fn write_number(t: &mut [u8], at: usize, x: u32)
    requires { at + 4 ≤ length t.old }
    ensures { words t.new ≡ pasted at 4 (words (number_bytes x)) (words t.old) }
{
    t[at..at + 4].copy_from_slice(&x.to_be_bytes());
}

fn write_value(t: &mut [u8], at: usize, value: [u32; 8])
    requires { at + 32 ≤ length t.old }
    ensures { words t.new ≡ pasted at 32 (byte_in (words value)) (words t.old) }
{
    for i in 0..8 {
        write_number(t, at + i * 4, value[i]);
    }
}

fn write_row(t: &mut [u8], at: usize, n: usize, row: Row)
    requires { (n ≤ 12) × (at + n * 4 ≤ length t.old) }
    ensures { words t.new ≡ pasted at (n * 4) (byte_in (words row.counts)) (words t.old) }
{
    for i in 0..n {
        write_number(t, at + i * 4, row.counts[i]);
    }
}

fn write_matrix(t: &mut [u8], at: usize, n: usize, matrix: [Row; 12])
    requires { (n ≤ 12) × (at + n * n * 4 ≤ length t.old) }
    ensures { words t.new ≡ pasted at (n * n * 4) (byte_in (matrix_word n (matrix_in matrix))) (words t.old) }
{
    for j in 0..n {
        write_row(t, at + j * n * 4, n, matrix[j]);
    }
}

// The record written to the bytes from `at` on.
#[tactic(auto, unfolding(model::specs::Messages::record_length))]
pub fn write_record(t: &mut [u8], at: usize, n: usize, r: Record)
    requires { (n ≤ 12) × ((at + record_length n ≤ length t.old) × InBytes r) }
    ensures { words t.new
        ≡ pasted at (record_length n) (record_byte (words (record_words n (record_in r)))) (words t.old) }
{
    t[at] = r.member as u8;
    t[at + 1] = r.slot as u8;
    t[at + 2] = r.operation as u8;
    write_number(t, at + COUNT_AT, r.count);
    let value = r.value;
    write_value(t, at + VALUE_AT, value);
    let matrix = r.matrix;
    write_matrix(t, at + MATRIX_AT, n, matrix);
}
