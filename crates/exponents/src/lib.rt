// Exponents of one channel (TS 6.1.3): the absolute exponent and its groups are read, logged and unpacked.
#![tactic(auto)]

ghost use Rattle.std.specs.Prelude.{◌≡◌, ◌+◌, ◌*◌, ◌≤◌, ◌<◌};
ghost use Rattle.refusal.specs.Refusals.{outcome_of, taken, ends};
ghost use Rattle.syntax.specs.Reads.{standing, read_of};
ghost use Rattle.syntax.specs.Cursors.{moved, held_of, over};
ghost use Rattle.exponents.specs.Set.{size_of, group_count};
ghost use Rattle.exponents.specs.Reads.{exponents_of, unfit, ask_of, abs_ask, group_ask, set_of, no_set, read_exponents_of};
ghost use Rattle.exponents.specs.Turns.{laid_of, holding, unpack_on, groups_on};

mod run;

use refusal::{Refusal, Why};
use run::Run;
use syntax::cursor::{Cursor, read_next};
use syntax::{Ask, Place, Role, names};
use tables::Bin;

// The slots by their names, in the type that a slot has here.
const CPL: u8 = tables::CPL as u8;

const LFE: u8 = tables::LFE as u8;

// The exponents of a slot, and the range of bins that they were read for.
// All 256 bins, as C is lent them; no heap.
#[derive(Clone, Copy)]
pub struct ExpSet {
    pub exp: [u8; 256],
    pub start: usize,
    pub end: usize,
}

// No set.
const NO_SET: ExpSet = ExpSet {
    exp: [0; 256],
    start: 0,
    end: 0,
};

// What reading a set answers, and the place and the set after it, taken or refused: a refused one leaves no set, which is promised of it.
#[derive(Clone, Copy)]
pub struct Exponents {
    pub answer: Result<(), Refusal>,
    pub place: Place,
    pub set: ExpSet,
}

// Whether a set can't be asked for so: its slot, its strategy or its range. Slot and strategy stay numbers here, since one that is none is told 6;
// behind it a match on the number says what an enum would.
fn is_unfit(slot: u8, strategy: u8, start: usize, end: usize) -> bool
    ensures { result ≡ unfit slot strategy start end }
{
    LFE < slot || strategy < 1 || 3 < strategy || end <= start || 256 < end
}

// How many bins a result of a strategy stands in.
fn size_of(strategy: u8) -> usize
    requires { (1 ≤ strategy) × (strategy ≤ 3) }
    ensures { (result ≡ size_of strategy) × (1 ≤ result) × (result ≤ 4) }
{
    match strategy {
        1 => 1,
        2 => 2,
        _ => 4,
    }
}

// How many groups a set has.
fn group_count(slot: u8, g: usize, start: usize, end: usize) -> usize
    requires { (start < end) × (end ≤ 256) × (1 ≤ g) × (g ≤ 4) }
    ensures { (result ≡ group_count slot g start end) × (result ≤ 300) }
{
    match slot {
        CPL => (end - start) / (3 * g),
        LFE => 2,
        _ => (end - 1 + 3 * g - 3) / (3 * g),
    }
}

// An element of a slot's exponents: its name is that for a full bandwidth channel, for coupling or for LFE.
// Beside the asks of `blocks` and `frame`: three names and an index of LFE's own are told apart here.
fn ask_of(slot: u8, full: u32, coupling: u32, lfe: u32, width: usize) -> Ask
    ensures { result ≡ ask_of slot full coupling lfe width }
{
    let (name, index) = match slot {
        CPL => (coupling, 0),
        LFE => (lfe, 0),
        _ => (full, slot as i16),
    };
    Ask {
        name,
        role: Role::Plain,
        index,
        width,
    }
}

// The absolute exponent.
fn abs_ask(slot: u8) -> Ask
    ensures { result ≡ abs_ask slot }
{
    ask_of(slot, names::ABSEXP, names::CPLABSEXP, names::LFEABSEXP, 4)
}

// A group.
fn group_ask(slot: u8) -> Ask
    ensures { result ≡ group_ask slot }
{
    ask_of(slot, names::EXPS, names::CPLEXPS, names::LFEEXPS, 7)
}

// One group: it is read and logged; 7, then 8, then its results are laid.
fn group(
    c: &mut Cursor<'_>,
    log: &mut [u32],
    exp: &mut [u8; 256],
    run: &mut Run,
    ask: Ask,
) -> Result<(), Refusal>
    requires { run.old.next ≤ 4000 }
    ensures laid { held_of (holding result (laid_of run.new exp.new)) c.new log.new ≡ over c.old (unpack_on run.old.size (laid_of run.old exp.old) (read_of c.old.bytes.now (standing c.old.place log.old) ask)) }
    ensures size { run.new.size ≡ run.old.size }
    ensures next { run.new.next ≤ run.old.next + 12 }
{
    let value = read_next(c, log, ask)?;
    if 124 < value {
        return Err(Why::GroupAbove.at(c.place.pos));
    }
    run.unpack(exp, value as u8, c.place.pos)
}

// So many groups, one after another.
fn groups(
    c: &mut Cursor<'_>,
    log: &mut [u32],
    exp: &mut [u8; 256],
    run: &mut Run,
    ask: Ask,
    count: usize,
) -> Result<(), Refusal>
    requires { (run.old.next ≤ 256) × (count ≤ 300) }
    ensures { held_of (holding result (laid_of run.new exp.new)) c.new log.new ≡ over c.old (groups_on c.old.bytes.now ask run.old.size count (ends (standing c.old.place log.old) (taken (laid_of run.old exp.old)))) }
{
    for _ in 0..count {
        group(c, log, exp, run, ask)?;
    }
    Ok(())
}

// Reads a set at a cursor: 6, then the absolute exponent, then every group, and last 9 where it ends before the range does.
// Start and end are two numbers and no range, since a range that ends before it starts is told of.
fn read_set(
    c: &mut Cursor<'_>,
    log: &mut [u32],
    slot: u8,
    strategy: u8,
    start: usize,
    end: usize,
) -> Result<ExpSet, Refusal>
    ensures { held_of (outcome_of result) c.new log.new ≡ over c.old (set_of c.old.bytes.now (standing c.old.place log.old) slot strategy start end) }
{
    if is_unfit(slot, strategy, start, end) {
        return Err(Why::BadArgument.at(c.place.pos));
    }
    let abs = read_next(c, log, abs_ask(slot))?;
    let size = size_of(strategy);
    let mut exp = [0; 256];
    let mut run = Run::begin(&mut exp, slot, size, start, abs as u8);
    let count = group_count(slot, size, start, end);
    groups(c, log, &mut exp, &mut run, group_ask(slot), count)?;
    if run.next < end {
        return Err(Why::SetTooShort.at(c.place.pos));
    }
    Ok(ExpSet { exp, start, end })
}

// Reads the exponents of one slot by strategy 1, 2 or 3 (D15, D25, D45) for the bins from start to end: 6, then the reads, then for each
// group 7 and 8, and last 9.
pub fn read_exponents(
    frame: &[u8],
    log: &mut [u32],
    place: Place,
    slot: u8,
    strategy: u8,
    start: Bin,
    end: Bin,
) -> Exponents
    ensures { exponents_of result log.new ≡ read_exponents_of frame.now (standing place log.old) slot strategy start.0 end.0 }
{
    let mut c = Cursor {
        bytes: frame,
        place,
    };
    read_exponents_at(&mut c, log, slot, strategy, start, end)
}

// The same at a cursor that is lent, which goes to the place that is answered.
// Beside `read_exponents`, which C calls with slices.
pub fn read_exponents_at(
    c: &mut Cursor<'_>,
    log: &mut [u32],
    slot: u8,
    strategy: u8,
    start: Bin,
    end: Bin,
) -> Exponents
    ensures { (exponents_of result log.new ≡ read_exponents_of c.old.bytes.now (standing c.old.place log.old) slot strategy start.0 end.0) × (c.new ≡ moved c.old result.place) }
{
    let read = read_set(c, log, slot, strategy, start.0, end.0);
    let place = c.place;
    match read {
        Ok(set) => Exponents {
            answer: Ok(()),
            place,
            set,
        },
        Err(r) => Exponents {
            answer: Err(r),
            place,
            set: NO_SET,
        },
    }
}
