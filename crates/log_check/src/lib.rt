// The check of a log of accepted operations, for C and for Rattle: include/concur.h.
#![tactic(auto)]

ghost use Rattle.std.specs.Prelude.{◌≡◌};
ghost use Rattle.logs.specs.Log.{log_number, LogChecked};
ghost use Rattle.rules.specs.Refusals.{answer};

use crate::rows::SIZE;
use crate::steps::rows_hold;
use rules::{MOST_MEMBERS, Refusal, is_numbered};

mod rows;
mod steps;

// The most rows of a log.
pub const MOST_ROWS: usize = 1024;

// What refuses a log of so many words, and a place for its verdict of so many.
#[tactic(auto, unfolding(logs::specs::Log::log_number))]
fn check_log(n: u32, long: usize, room: usize) -> Result<(), Refusal>
    ensures { answer result ≡ log_number n long room }
{
    if !is_numbered(n, MOST_MEMBERS) {
        return Err(Refusal::Size);
    }
    if long % SIZE != 0 || room != 1 {
        return Err(Refusal::Length);
    }
    if MOST_ROWS < long / SIZE {
        return Err(Refusal::Rows);
    }
    Ok(())
}

// Answers 0 and writes the verdict, 1 yes or 0 no.
#[unsafe(no_mangle)]
pub extern "C" fn concur_log_check(log: &[u32], n: u32, verdict: &mut [u32]) -> u32
    ensures { LogChecked n log.now verdict.old result verdict.new }
{
    if let Err(refusal) = check_log(n, log.len(), verdict.len()) {
        return refusal.number();
    }
    verdict[0] = u32::from(rows_hold(log, n));
    0
}
