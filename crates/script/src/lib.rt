// The board program's lines, read from and printed to slices of bytes.
#![tactic(auto)]

ghost use Rattle.std.specs.Prelude.{◌≡◌, length};
ghost use Rattle.model.specs.Script.{number_of, before, beyond, space, line_feed, line_of, first_of};
ghost use Rattle.script.specs.Meaning.{held_number, held_pair, held_line, line_member};

mod scan;
pub mod steps;

// A line that was read: what it asks for, of which member. (The type of an operation, read or write, is a number: it stands in a sheet.)
#[derive(Clone, Copy, Debug, PartialEq, Eq)]
pub enum Line {
    Write { member: u32, value: u32 },
    Read { member: u32, slot: u32 },
    Deliver { member: u32 },
    Crash { member: u32 },
}

impl Line {
    pub fn member(self) -> u32
        ensures { result ≡ line_member self }
    {
        match self {
            Line::Write { member, .. }
            | Line::Read { member, .. }
            | Line::Deliver { member }
            | Line::Crash { member } => member,
        }
    }
}

// No line of a good form is longer.
pub const LONGEST_LINE: usize = 27;

// No line that is printed is longer.
pub const LONGEST_PRINTED: usize = 44;

// The number that the bytes write: digits without leading zeros, below 2^32.
pub fn parse_number(t: &[u8]) -> Option<u32>
    ensures { result ≡ held_number (number_of t.now) }
{
    if t.is_empty() || 10 < t.len() || scan::leading_zero(t) {
        return None;
    }
    let mut value: u64 = 0;
    for b in t {
        value = value * 10 + scan::digit(*b)?;
    }
    u32::try_from(value).ok()
}

// The two numbers that the bytes write, with one space between.
fn parse_pair(t: &[u8]) -> Option<(u32, u32)>
    ensures { result ≡ held_pair (number_of (before space t.now)) (number_of (beyond space t.now)) }
{
    let at = scan::find(t, b' ')?;
    let first = parse_number(&t[..at])?;
    let second = parse_number(&t[at + 1..])?;
    Some((first, second))
}

// The line that the bytes write, without its line feed; none where they have another form.
pub fn parse_line(t: &[u8]) -> Option<Line>
    ensures { result ≡ held_line (line_of t.now) }
{
    if let Some(rest) = t.strip_prefix(b"write ") {
        let (member, value) = parse_pair(rest)?;
        return Some(Line::Write { member, value });
    }
    if let Some(rest) = t.strip_prefix(b"read ") {
        let (member, slot) = parse_pair(rest)?;
        return Some(Line::Read { member, slot });
    }
    if let Some(rest) = t.strip_prefix(b"deliver ") {
        let member = parse_number(rest)?;
        return Some(Line::Deliver { member });
    }
    let rest = t.strip_prefix(b"crash ")?;
    let member = parse_number(rest)?;
    Some(Line::Crash { member })
}

// The number of members that the first line names, without its line feed.
pub fn parse_members(t: &[u8]) -> Option<u32>
    ensures { result ≡ held_number (first_of t.now) }
{
    let rest = t.strip_prefix(b"members ")?;
    parse_number(rest)
}

// How long the first line is, without its line feed.
pub fn line_length(t: &[u8]) -> usize
    ensures { result ≡ length (before line_feed t.now) }
{
    scan::find(t, b'\n').unwrap_or(t.len())
}
