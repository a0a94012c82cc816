// The kinds of message, and what refuses a message's bytes: so the reader and the check judge them.
#![tactic(auto)]

ghost use Rattle.std.specs.Prelude.{◌≡◌, ◌&&◌, ◌+◌, ◌*◌, ◌≤◌, length, IfOk};
ghost use Rattle.lists.specs.Functions.{inside};
ghost use Rattle.lists.specs.Parts.{words};
ghost use Rattle.model.specs.Kinds.{is_operation};
ghost use Rattle.model.specs.Messages.{length_of, message_from, fit_message, right_n, read_number};
ghost use Rattle.rules.specs.Refusals.{answer};
ghost use Rattle.message_numbers.specs.Kinds.{kind_number};

use message_bytes::steps::{FIELDS_AT, FRAME_LENGTH, RECORD_AT, second_at, wide};
use rules::{MOST_MEMBERS, Refusal, is_fit, is_numbered};
use steps::length_of;

pub mod kind;
pub mod steps;

pub use kind::MessageKind;

// Are the three bytes from `at` on a member, a slot and a type?
fn fields_at(s: &[u8], at: usize, n: u32) -> bool
    requires { at + 3 ≤ length s.now }
    ensures { let b = words s.now in result ≡ (inside n (b at) && inside n (b (at + 1)) && is_operation (b (at + 2))) }
{
    is_fit(wide(s[at]), wide(s[at + 1]), wide(s[at + 2]), n)
}

// Are the fields of a message of the right length as number 15 wants them? No count and no matrix is looked at.
#[tactic(auto, using(crate::proofs::Judged::by_kind), unfolding(model::specs::Messages::length_of, model::specs::Messages::record_length))]
fn fields_fit(kind: MessageKind, s: &[u8], n: u32) -> bool
    requires { (1 ≤ n)
        × ((n ≤ 12) × ((kind_number kind ≡ words s.now 3) × (length s.now ≡ 2 + length_of (kind_number kind) n))) }
    ensures { result ≡ (right_n n (words s.now) && fit_message n (message_from n (words s.now))) }
{
    let fifth = wide(s[FIELDS_AT]);
    match kind {
        MessageKind::Submit => fields_at(s, FIELDS_AT, n),
        MessageKind::Reply => {
            fifth == n && fields_at(s, RECORD_AT, n) && fields_at(s, second_at(n as usize), n)
        }
        MessageKind::Commit => fifth == n && fields_at(s, RECORD_AT, n),
        MessageKind::Outcome => is_numbered(fifth, 2),
    }
}

fn length_field(a: u8, b: u8) -> usize
    ensures { result ≡ a * 256 + b }
{
    u16::from_be_bytes([a, b]) as usize
}

// The kind of the message in these bytes on a board of n, or what refuses them: the numbers of the reader, which are the check's.
#[tactic(auto, unfolding(model::specs::Messages::read_number, lists::specs::Functions::inside))]
pub fn check_message(s: &[u8], n: u32) -> Result<MessageKind, Refusal>
    ensures number_value { answer result ≡ read_number n s.now }
    ensures kind_value { IfOk result (λ kind. kind_number kind ≡ words s.now 3) }
{
    if !is_numbered(n, MOST_MEMBERS) {
        return Err(Refusal::Size);
    }
    let [high, low, version, kind, ..] = s else {
        return Err(Refusal::Frame);
    };
    let rest = s.len() - FRAME_LENGTH;
    if length_field(*high, *low) != rest {
        return Err(Refusal::Frame);
    }
    if *version != 1 {
        return Err(Refusal::Version);
    }
    let kind = MessageKind::try_from(wide(*kind))?;
    if rest != length_of(kind, n) || !fields_fit(kind, s, n) {
        return Err(Refusal::Field);
    }
    Ok(kind)
}
