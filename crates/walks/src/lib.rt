// Mantissa walks (TS 6.3.5): how far the mantissas of a channel reach, from their codes alone.
#![tactic(auto)]

ghost use Rattle.std.specs.Prelude.{◌≡◌, ◌+◌, ◌%◌, ◌≤◌, ◌<◌};
ghost use Rattle.refusal.specs.Refusals.{ran_of};
ghost use Rattle.syntax.specs.Cursors.{moved};
ghost use Rattle.walks.specs.Walk.{state, walked_of, share, cost, counted, Reachable, mantissa_of, going, walk_codes, unfit_range, unreachable, unfit_walk, walk_of};

use refusal::{Refusal, Why};
use syntax::cursor::Cursor;
use syntax::{Place, is_unsound};
use tables::Bin;

// How many members the open groups of codes 1, 2 and 4 have. All channels of a block share them.
#[derive(Clone, Copy)]
pub struct Groups {
    pub g1: u8,
    pub g2: u8,
    pub g4: u8,
}

// What a walk answers, and the place and the groups after it, taken or refused.
// Beside syntax's Moved: the groups go on too, taken or refused.
#[derive(Clone, Copy)]
pub struct Walked {
    pub answer: Result<(), Refusal>,
    pub place: Place,
    pub groups: Groups,
}

// A walk on its way: its limit is that of a sound cursor, and its groups are such as a walk can leave.
struct Walk {
    place: Place,
    groups: Groups,
    ghost short: { place.limit ≤ 32768 },
    ghost reachable: { Reachable groups },
}

// A mantissa's bits by its code; those of codes 1, 2 and 4 are their group's.
const WIDTHS: [u8; 16] = [0, 0, 0, 3, 0, 4, 5, 6, 7, 8, 9, 10, 11, 12, 14, 16];

// A group of so many members and bits counts one more: the first member pays for all.
fn join(n: &mut u8, members: u8, bits: u8) -> u8
    requires { (n.old ≤ 2) × (0 < members) }
    ensures { (result ≡ share n.old bits) × (n.new ≡ (n.old + 1) % members) }
{
    let cost = if *n == 0 { bits } else { 0 };
    *n = (*n + 1) % members;
    cost
}

impl Groups {
    // The bits that a mantissa takes, which is counted: one match for both, since a code's branch is seldom foreseen.
    // A code is a number here and in Walk: C lends 256 of them, and they would be converted one by one.
    #[tactic(auto, unfolding(crate::specs::Walk::cost, crate::specs::Walk::counted, crate::specs::Walk::width))]
    fn count(&mut self, b: u8) -> u8
        requires { (b < 16) × Reachable self.old }
        ensures { (result ≡ cost self.old b) × (self.new ≡ counted self.old b) }
    {
        match b {
            1 => join(&mut self.g1, 3, 5),
            2 => join(&mut self.g2, 3, 7),
            4 => join(&mut self.g4, 2, 7),
            _ => WIDTHS[b as usize],
        }
    }
}

impl Walk {
    // One mantissa: 13, then the groups count it, then 1. One of no bits asks for no room, and past the limit there is room for none. Code
    // 0, of which there are long runs, is told apart first.
    fn mantissa(&mut self, b: u8) -> Result<(), Refusal>
        ensures { ran_of result (state self.new.place self.new.groups) ≡ mantissa_of b (state self.old.place self.old.groups) }
    {
        if b == 0 {
            return Ok(());
        }
        if 15 < b {
            return Err(Why::PointerAbove.at(self.place.pos));
        }
        let n = self.groups.count(b) as usize;
        if self.place.limit.saturating_sub(self.place.pos) < n {
            return Err(Why::PastLimit.at(self.place.pos));
        }
        self.place.pos += n;
        Ok(())
    }

    // The mantissas of a list of codes.
    fn codes(&mut self, bap: &[u8]) -> Result<(), Refusal>
        ensures { ran_of result (state self.new.place self.new.groups) ≡ walk_codes bap.now (going (state self.old.place self.old.groups)) }
    {
        for b in bap {
            self.mantissa(*b)?;
        }
        Ok(())
    }
}

// Whether a range of bins can't be walked: it ends before its start, or past bin 256.
pub fn is_unfit_range(start: usize, end: usize) -> bool
    ensures { result ≡ unfit_range start end }
{
    end < start || 256 < end
}

// Whether no walk can leave the groups so.
fn is_unreachable(g: Groups) -> bool
    ensures { result ≡ unreachable g }
{
    2 < g.g1 || 2 < g.g2 || 1 < g.g4
}

// Whether a walk can't be asked for so: its place, its range or its groups.
fn is_unfit(len: usize, place: Place, start: usize, end: usize, groups: Groups) -> bool
    ensures { result ≡ unfit_walk len place start end groups }
{
    is_unsound(len, place) || is_unfit_range(start, end) || is_unreachable(groups)
}

// Walks over the mantissas of the bins from start to end, and carries the groups on: 6, then for each mantissa 13 or 1. It reads no
// mantissa's bits and logs nothing.
pub fn conventional(
    frame: &[u8],
    place: Place,
    bap: &[u8; 256],
    start: Bin,
    end: Bin,
    groups: Groups,
) -> Walked
    ensures { walked_of result ≡ walk_of frame.now place bap.now start.0 end.0 groups }
{
    if is_unfit(frame.len(), place, start.0, end.0, groups) {
        return Walked {
            answer: Err(Why::BadArgument.at(place.pos)),
            place,
            groups,
        };
    }
    let mut walk = Walk { place, groups };
    let answer = walk.codes(&bap[start.0..end.0]);
    let Walk { place, groups } = walk;
    Walked {
        answer,
        place,
        groups,
    }
}

// The same at a cursor that is lent, which goes to the place that is answered.
// Beside `conventional`, which C calls with slices.
pub fn conventional_at(
    c: &mut Cursor<'_>,
    bap: &[u8; 256],
    start: Bin,
    end: Bin,
    groups: Groups,
) -> Walked
    ensures { (walked_of result ≡ walk_of c.old.bytes.now c.old.place bap.now start.0 end.0 groups) × (c.new ≡ moved c.old result.place) }
{
    let walked = conventional(c.bytes, c.place, bap, start, end, groups);
    c.place = walked.place;
    walked
}
