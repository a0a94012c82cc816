// Tests of places in turn, for this crate and those above: the test is passed in.
ghost use Rattle.std.specs.Prelude.{ℕ, ◌≤◌, ◌<◌};
ghost use Rattle.rows.specs.Tested.{OfEach};
ghost use Rattle.rows.specs.declared.Check.{Check as CheckStruct};

use crate::Check;

// The tests of the places 0 to n - 1 in turn, up to the first that fails, and the pairs of all that were looked at.
pub fn test_each<F: Fn(usize) -> Check>(n: usize, test: F) -> Check
    requires callable { (k : ℕ) → k < n → F.pre test k }
    requires few { (k : ℕ) (c : CheckStruct) → k < n → F.post test k c → c.pairs ≤ 12 }
    requires most { n ≤ 12 }
    ensures { OfEach n (F.post test) result }
{
    let mut found = Check::skipped();
    for k in 0..n {
        let check = test(k);
        found.pairs += check.pairs;
        if !check.passed {
            found.passed = false;
            return found;
        }
    }
    found
}
