//! Where two files differ.

ghost use Rattle.std.specs.Prelude.{◌≡◌, MatchOption};
ghost use Rattle.mv_convert.specs.Differences.{IsFirstDifference};

/// The first offset at which two files differ: where one begins the other, the length of the shorter one.
pub fn first_difference(a: &[u8], b: &[u8]) -> Option<u64>
    ensures { MatchOption result (a.now ≡ b.now) (IsFirstDifference a.now b.now) }
{
    let shorter = a.len().min(b.len());
    for at in 0..shorter {
        if a[at] != b[at] {
            return Some(at as u64);
        }
    }
    if a.len() == b.len() {
        None
    } else {
        Some(shorter as u64)
    }
}
