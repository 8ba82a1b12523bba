//! Turns that just go on.

ghost use Rattle.std.specs.Prelude.{◌≡◌, ◌≤◌, ◌+◌, true, false, ℕ, List, length, take, vec_len};
ghost use Rattle.std.specs.List.{All};
ghost use Rattle.mv_image.specs.Spelling.{Fields};
ghost use Rattle.mv_bindings.specs.declared.action.Action.{Action};
ghost use Rattle.mv_harts_runs.specs.Harts.{Harts};
ghost use Rattle.mv_harts_turns.specs.Groups.{Shows, CanAllCount, HaveExecuted, FetchesAre, Advanced, Stands};
ghost use Rattle.mv_harts_turns.specs.Runs.{AlwaysFetch, Outside, Ran};

use crate::group::Group;
use crate::schedule::turns_of;
use mv_probe::FetchOracle;

/// The turns of hart 0, as a caller of `Seat::advance`.
pub struct ByLeader;

/// Those of another hart.
pub struct ByOther;

impl Group {
    // A turn of a hart whose instruction just goes on and concerns no other hart, as nearly each does; then the answer is yes. Else nothing happens. While a
    // commit is under way hart 0 has no such turn.
    #[inline(always)]
    fn advance(&mut self, hart: usize, oracle: &mut Box<dyn FetchOracle>) -> bool
        requires there { hart ≤ vec_len self.old.others }
        requires few { CanAllCount self.old }
        ensures advances { result ≡ true → (image : Fields) (actions : List Action) (bytes : ℕ → List ℕ) (hs : Harts) → Shows image actions bytes self.old hs → FetchesAre hs →
            Advanced image actions hart bytes (way oracle.old) (way oracle.new) self.old self.new hs }
        ensures stands { result ≡ false → Stands self.old self.new }
        ensures still { result ≡ false → way oracle.new ≡ way oracle.old }
        ensures executed { (most : ℕ) → HaveExecuted self.old most → HaveExecuted self.new (most + 1) }
        ensures others { vec_len self.new.others ≡ vec_len self.old.others }
    {
        if hart == 0 {
            if self.under {
                return false;
            }
            return self.leader.advance::<ByLeader>(oracle);
        }
        self.others[hart - 1].advance::<ByOther>(oracle)
    }

    /// The turns of a schedule from the one at `first` on that just go on: the place of the first that doesn't, or how many there are. It isn't generic, so
    /// that a program has one copy of it.
    #[inline(never)]
    pub(crate) fn go_on(
        &mut self,
        schedule: &[u8],
        first: usize,
        oracle: &mut Box<dyn FetchOracle>,
    ) -> usize
        requires within { first ≤ length schedule.now }
        requires numbered { All (λ hart. hart ≤ vec_len self.old.others) schedule.now }
        requires executed { HaveExecuted self.old first }
        ensures since { first ≤ result }
        ensures within { result ≤ length schedule.now }
        ensures others { vec_len self.new.others ≡ vec_len self.old.others }
        ensures goes { (image : Fields) (actions : List Action) (count : ℕ) (was is : Outside) → AlwaysFetch image actions count was schedule.now → is.way ≡ way oracle.old → Ran image actions count (take first schedule.now) was is self.old →
            Ran image actions count (take result schedule.now) was (record is { way = way oracle.new }) self.new }
    {
        let turns = turns_of(schedule);
        for time in first..turns {
            if !self.advance(usize::from(schedule[time]), oracle) {
                return time;
            }
        }
        turns
    }
}
