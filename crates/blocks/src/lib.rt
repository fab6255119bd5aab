// Side information and block allocation (TS 6.2.2; document 01, "Allocation"): what the blocks of a frame carry on, and the pointers of all
// slots of a block.
#![tactic(auto)]

ghost use Rattle.std.specs.Prelude.{◌≡◌, ◌&&◌, eqb, slice_index, List, [], ℕ, ◌<◌, ◌≤◌, ◌+◌, Bool};
ghost use Rattle.refusal.specs.Refusals.{taken, outcome_of, ran_of, and_then};
ghost use Rattle.syntax.specs.Reads.{standing, moved_of};
ghost use Rattle.syntax.specs.Cursors.{held_of, over};
ghost use Rattle.tables.specs.Bands.{zeros};
ghost use Rattle.tables.specs.Pointers.{pointers_by};
ghost use Rattle.tables.specs.Slots.{slot_count};
ghost use Rattle.alloc.specs.Answers.{filled, allocate_of};
ghost use Rattle.blocks.specs.Block.{bai_fits, leak_fits, sent_fit, others_fit, deltas_fit, codes_fit, quiet_from, no_delta, shared_of, codes_by, leak_at, delta_at, slot_by, asked, uncovered, lacks_leak, slot_of, filled_slots, silence, slots_from, allocate_block_of};
ghost use Rattle.blocks.specs.Side.{bad_code, deltbae_of, field_ask, with_segment, segment_of, segments_of, slot_delta_of, reached, beside};

use alloc::{Codes, Leak};
use refusal::{Refusal, Why};
use syntax::cursor::{Cursor, read_next};
use syntax::{Ask, Moved, Place, Role, names};
use tables::{Bin, CPL, Delta, LFE, SLOTS};

// No segments.
pub const NO_DELTA: Delta = Delta {
    count: 0,
    offset: [0; 8],
    len: [0; 8],
    ba: [0; 8],
};

// The five parameters, which are sent together, by their names in TS, not yet decoded.
#[derive(Clone, Copy)]
pub struct Bai {
    pub sdcycod: u8,
    pub fdcycod: u8,
    pub sgaincod: u8,
    pub dbpbcod: u8,
    pub floorcod: u8,
}

// The side information that a frame's blocks carry on, by its names in TS, not yet decoded: the five parameters, csnroffst and the
// coupling leak where they were sent, and the rest of each slot, an array for each part, as C holds it.
#[derive(Clone, Copy)]
pub struct AllocState {
    pub bai: Option<Bai>,
    pub csnroffst: Option<u8>,
    pub fsnroffst: [u8; SLOTS],
    pub fgaincod: [u8; SLOTS],
    pub cplleak: Option<Leak>,
    pub delta: [Delta; SLOTS],
}

// What the codes of a block's slots share.
#[derive(Clone, Copy)]
struct Shared {
    bai: Bai,
    csnroffst: u8,
    fscod: u8,
}

// A block that has been tested: its state, what the codes of its slots share, and the lent tables.
#[derive(Clone, Copy)]
struct Block<'a> {
    state: &'a AllocState,
    shared: Shared,
    hearing: &'a [u16],
    log_add: &'a [u8],
}

// What is asked for a slot: whether it is there, whether its pointers are hebap, its exponents, and their range and the range asked for,
// each from its start to its end.
// present and high are C's flags, and `slot_by` has them so: an Option of the rest would be built and taken apart once a slot.
#[derive(Clone, Copy)]
struct Slot<'a> {
    present: bool,
    high: bool,
    exp: &'a [u8; 256],
    range: [usize; 4],
}

// Whether the five parameters are in their tables.
fn bai_fits(bai: Bai) -> bool
    ensures { result ≡ bai_fits bai }
{
    bai.sdcycod <= 3
        && bai.fdcycod <= 3
        && bai.sgaincod <= 3
        && bai.dbpbcod <= 3
        && bai.floorcod <= 7
}

// Whether the coupling leak's codes are in their table.
fn leak_fits(leak: Leak) -> bool
    ensures { result ≡ leak_fits leak }
{
    leak.cplfleak <= 7 && leak.cplsleak <= 7
}

// Whether the codes that were sent are in their tables.
#[tactic(auto, unfolding(crate::specs::Block::sent_fit))]
fn sent_fit(state: &AllocState) -> bool
    ensures { result ≡ sent_fit state.now }
{
    state.bai.is_none_or(bai_fits)
        && state.csnroffst.is_none_or(|csnroffst| csnroffst <= 63)
        && state.cplleak.is_none_or(leak_fits)
}

// Whether the codes that every slot has, and fscod, are in their tables.
#[tactic(auto, unfolding(crate::specs::Block::others_fit))]
fn others_fit(state: &AllocState, fscod: u8) -> bool
    ensures { result ≡ others_fit state.now fscod }
{
    tables::all_upto(&state.fgaincod, 0, SLOTS, 7)
        && tables::all_upto(&state.fsnroffst, 0, SLOTS, 15)
        && fscod <= 2
}

// Whether every slot's segments are fit.
#[tactic(auto, unfolding(crate::specs::Block::deltas_fit))]
fn deltas_fit(state: &AllocState) -> bool
    ensures { result ≡ deltas_fit state.now.delta }
{
    state.delta.iter().all(|delta| tables::delta_fits(*delta))
}

// Whether no code is past its table.
#[tactic(auto, unfolding(crate::specs::Block::codes_fit))]
fn codes_fit(state: &AllocState, fscod: u8) -> bool
    ensures { result ≡ codes_fit state.now fscod }
{
    sent_fit(state) && others_fit(state, fscod) && deltas_fit(state)
}

// Whether no slot that is there has a fine offset, whatever else is asked for it.
#[tactic(auto, using(crate::proofs::Turns::quiet_not, crate::proofs::Turns::quiet_fine, crate::proofs::Turns::quiet_absent, crate::proofs::Turns::quiet_end))]
fn quiet_slots(state: &AllocState, present: &[bool; SLOTS]) -> bool
    ensures { (high : List Bool) (exponents ranges : List (List ℕ)) → result ≡ quiet_from state.now.fsnroffst 0 (asked present.now high exponents ranges) }
{
    for i in 0..SLOTS {
        let fsnroffst = state.fsnroffst[i];
        if present[i] && fsnroffst != 0 {
            return false;
        }
    }
    true
}

// Whether no offset is in use.
fn all_quiet(state: &AllocState, csnroffst: u8, present: &[bool; SLOTS]) -> bool
    ensures { (high : List Bool) (exponents ranges : List (List ℕ)) → result ≡ (eqb csnroffst 0 && quiet_from state.now.fsnroffst 0 (asked present.now high exponents ranges)) }
{
    csnroffst == 0 && quiet_slots(state, present)
}

// The codes of a slot.
// `Codes` has the five parameters by themselves, as its public names are: this place alone copies them.
fn codes_of(state: &AllocState, shared: Shared, i: usize) -> Codes
    requires { i < slot_count }
    ensures { result ≡ codes_by shared state.now i }
{
    let Shared {
        bai,
        csnroffst,
        fscod,
    } = shared;
    Codes {
        sdcycod: bai.sdcycod,
        fdcycod: bai.fdcycod,
        sgaincod: bai.sgaincod,
        dbpbcod: bai.dbpbcod,
        floorcod: bai.floorcod,
        fgaincod: state.fgaincod[i],
        csnroffst,
        fsnroffst: state.fsnroffst[i],
        fscod,
    }
}

// The leak that a slot begins with: coupling has one.
// Slots are numbers: C hands any over, and 6 is told for one that is none. Functions and no methods, here and below: their definitions and edits
// have these names.
#[tactic(auto, unfolding(crate::specs::Block::leak_at))]
fn leak_of(state: &AllocState, i: usize) -> Option<Leak>
    ensures { result ≡ leak_at state.now i }
{
    if i == CPL { state.cplleak } else { None }
}

// The segments that apply to a slot: LFE takes none.
#[tactic(auto, unfolding(crate::specs::Block::delta_at))]
fn delta_of(state: &AllocState, i: usize) -> Delta
    requires { i < slot_count }
    ensures { result ≡ delta_at state.now i }
{
    if i == LFE { NO_DELTA } else { state.delta[i] }
}

// Whether the exponents don't cover the range asked for, whatever else is asked for the slot.
// Four numbers, as C hands them over and `slot_by` has them.
#[tactic(auto, unfolding(crate::specs::Block::uncovered))]
fn is_uncovered(range: [usize; 4]) -> bool
    ensures { (present high : Bool) (exp : List ℕ) → result ≡ uncovered (slot_by present high exp range) }
{
    range[0] > range[2] || range[1] < range[3]
}

// Whether a slot needs a leak that was not sent.
#[tactic(auto, unfolding(crate::specs::Block::lacks_leak))]
fn lacks_leak(state: &AllocState, i: usize) -> bool
    ensures { result ≡ lacks_leak state.now i }
{
    i == CPL && state.cplleak.is_none()
}

// A slot's channel alone, into its row.
fn channel_of(
    block: Block<'_>,
    i: usize,
    slot: Slot<'_>,
    row: &mut [u8; 256],
) -> Result<(), Refusal>
    requires { i < slot_count }
    ensures { let b = block.entry in let s = slot.entry in ran_of result row.new ≡ allocate_of s.exp.now (slice_index s.range 2) (slice_index s.range 3) (codes_by b.shared b.state.now i) (leak_at b.state.now i) (delta_at b.state.now i) (pointers_by s.high) b.hearing.now b.log_add.now }
{
    alloc::allocate(
        slot.exp,
        Bin(slot.range[2]),
        Bin(slot.range[3]),
        codes_of(block.state, block.shared, i),
        leak_of(block.state, i),
        delta_of(block.state, i),
        tables::pointers_by(slot.high),
        block.hearing,
        block.log_add,
        row,
    )
}

// One slot, into its row of zeros: 12 where its exponents don't cover the range, 10 for a leak not sent, then the channel alone.
#[tactic(auto, using(crate::proofs::Cases::alone_filled), unfolding(crate::specs::Block::slot_of, crate::specs::Block::codes_at))]
fn fill_slot(block: Block<'_>, i: usize, slot: Slot<'_>, row: &mut [u8; 256]) -> Result<(), Refusal>
    requires slot { i < slot_count }
    requires blank { row.old ≡ zeros }
    requires shared { block.shared ≡ shared_of block.state.now block.shared.fscod }
    ensures { let b = block.entry in let s = slot.entry in ran_of result row.new ≡ filled (slot_of b.state.now b.shared.fscod b.hearing.now b.log_add.now i (slot_by s.present s.high s.exp.now s.range)) }
{
    if !slot.present {
        return Ok(());
    }
    if is_uncovered(slot.range) {
        return Err(Why::NotCovered.at(0));
    }
    if lacks_leak(block.state, i) {
        return Err(Why::NotSent.at(0));
    }
    channel_of(block, i, slot, row)
}

// Zeros for every slot.
fn zero_rows(bap: &mut [[u8; 256]; SLOTS])
    ensures { bap.new ≡ silence }
{
    *bap = [[0; 256]; SLOTS];
}

// The slots in order, each into its row of zeros, up to the first that is refused. What is asked for them stands in an array for each part,
// as C lends it.
#[tactic(auto, using(crate::proofs::Turns::slots_stop, crate::proofs::Turns::slots_end, crate::proofs::Cases::slot_refused), unfolding(crate::specs::Block::slot_at))]
fn fill_slots(
    block: Block<'_>,
    present: &[bool; SLOTS],
    high: &[bool; SLOTS],
    exponents: &[[u8; 256]; SLOTS],
    ranges: &[[usize; 4]; SLOTS],
    bap: &mut [[u8; 256]; SLOTS],
) -> Result<(), Refusal>
    requires blank { bap.old ≡ silence }
    requires shared { block.shared ≡ shared_of block.state.now block.shared.fscod }
    ensures { let b = block.entry in ran_of result bap.new ≡ filled_slots (slots_from b.state.now b.shared.fscod b.hearing.now b.log_add.now 0 (asked present.now high.now exponents.now ranges.now)) }
{
    for i in 0..SLOTS {
        let slot = Slot {
            present: present[i],
            high: high[i],
            exp: &exponents[i],
            range: ranges[i],
        };
        let one = fill_slot(block, i, slot, &mut bap[i]);
        if let Err(r) = one {
            zero_rows(bap);
            return Err(r);
        }
    }
    Ok(())
}

// What every block is tested for first, which is all that one without slots is tested for: 21 for unfit tables, 11 for a code past its table,
// 10 for csnroffst or the parameters not sent. What passes shares these.
#[tactic(auto, unfolding(crate::specs::Block::allocate_block_of, crate::specs::Block::slots_from))]
fn first_tests(
    state: &AllocState,
    fscod: u8,
    hearing: &[u16],
    log_add: &[u8],
) -> Result<Shared, Refusal>
    ensures { outcome_of result ≡ and_then (allocate_block_of state.now fscod [] hearing.now log_add.now).outcome (λ _. taken (shared_of state.now fscod)) }
{
    if !tables::tables_fit(hearing, log_add) {
        return Err(Why::BadTables.at(0));
    }
    if !codes_fit(state, fscod) {
        return Err(Why::CodePastTable.at(0));
    }
    let Some(csnroffst) = state.csnroffst else {
        return Err(Why::NotSent.at(0));
    };
    let Some(bai) = state.bai else {
        return Err(Why::NotSent.at(0));
    };
    Ok(Shared {
        bai,
        csnroffst,
        fscod,
    })
}

// The pointers of a block's slots, into a row for each. Of each slot it takes whether it is there, whether its pointers are hebap, its exponents,
// and their range and the range asked for, each from its start to its end. What `first_tests` refuses; zeros where no offset is in use; else
// slot by slot 12, 10 for the leak, and what the channel alone answers. On refusal all rows are zeros.
#[tactic(auto, using(crate::proofs::Cases::block_own, crate::proofs::Cases::block_quiet, crate::proofs::Cases::block_slots))]
pub fn allocate_block(
    state: AllocState,
    fscod: u8,
    present: &[bool; SLOTS],
    high: &[bool; SLOTS],
    exponents: &[[u8; 256]; SLOTS],
    ranges: &[[usize; 4]; SLOTS],
    hearing: &[u16],
    log_add: &[u8],
    bap: &mut [[u8; 256]; SLOTS],
) -> Result<(), Refusal>
    ensures { ran_of result bap.new ≡ allocate_block_of state fscod (asked present.now high.now exponents.now ranges.now) hearing.now log_add.now }
{
    zero_rows(bap);
    let shared = first_tests(&state, fscod, hearing, log_add)?;
    if all_quiet(&state, shared.csnroffst, present) {
        return Ok(());
    }
    let block = Block {
        state: &state,
        shared,
        hearing,
        log_add,
    };
    fill_slots(block, present, high, exponents, ranges, bap)
}

// Whether a deltbae code is refused: there is nothing to keep in block 0, and none above 2.
// deltbae is a number, as C hands it over and the definition has it.
fn is_bad_code(code: u32, block0: bool) -> bool
    ensures { result ≡ bad_code code block0 }
{
    code > 2 || (code == 0 && block0)
}

// The segments that a slot's deltbae code leaves it: 6 for the slot, then 15; 2 ends its segments, 0 and 1 leave them.
#[tactic(auto, unfolding(crate::specs::Side::deltbae_of))]
pub fn delta_code(before: Delta, slot: usize, code: u32, block0: bool) -> Result<Delta, Refusal>
    ensures { outcome_of result ≡ deltbae_of before slot code block0 }
{
    if slot > LFE {
        return Err(Why::BadArgument.at(0));
    }
    if is_bad_code(code, block0) {
        return Err(Why::BadDelta.at(0));
    }
    // One answer, over which none are put. With an answer for each case, or one of two chosen by an `if`, the segments would pass through memory
    // on their way, and a call would take twice the time.
    let mut after = before;
    if code == 2 {
        after = NO_DELTA;
    }
    Ok(after)
}

// An element of a slot's segments. Coupling has names of its own.
fn field(name: u32, cpl_name: u32, width: usize, slot: usize) -> Ask
    requires { slot < slot_count }
    ensures { result ≡ field_ask name cpl_name width slot }
{
    Ask {
        name: if slot == CPL { cpl_name } else { name },
        role: Role::Plain,
        index: slot as i16,
        width,
    }
}

// One segment more.
fn put_segment(delta: &mut Delta, offset: u8, len: u8, ba: u8)
    requires { delta.old.count < 8 }
    ensures { delta.new ≡ with_segment delta.old offset len ba }
{
    let k = delta.count as usize;
    delta.offset[k] = offset;
    delta.len[k] = len;
    delta.ba[k] = ba;
    delta.count += 1;
}

// Reads one segment more.
fn segment(
    c: &mut Cursor<'_>,
    log: &mut [u32],
    slot: usize,
    delta: &mut Delta,
) -> Result<(), Refusal>
    requires slot { slot < slot_count }
    requires room { delta.old.count < 8 }
    ensures run { beside (held_of (outcome_of result) c.new log.new) delta.new ≡ over c.old (segment_of c.old.bytes.now slot delta.old (standing c.old.place log.old)) }
    ensures more { delta.new.count ≤ delta.old.count + 1 }
{
    let offset = read_next(
        c,
        log,
        field(names::DELTOFFST, names::CPLDELTOFFST, 5, slot),
    )?;
    let len = read_next(c, log, field(names::DELTLEN, names::CPLDELTLEN, 4, slot))?;
    let ba = read_next(c, log, field(names::DELTBA, names::CPLDELTBA, 3, slot))?;
    put_segment(delta, offset as u8, len as u8, ba as u8);
    Ok(())
}

// Reads n segments.
#[tactic(auto, using(crate::proofs::SideLaws::segments_turn), unfolding(crate::specs::Side::segments_of))]
fn segments(c: &mut Cursor<'_>, log: &mut [u32], slot: usize, n: usize) -> Result<Delta, Refusal>
    requires slot { slot < slot_count }
    requires room { n ≤ 8 }
    ensures { held_of (outcome_of result) c.new log.new ≡ over c.old (segments_of c.old.bytes.now slot n (reached no_delta (standing c.old.place log.old))) }
{
    let mut delta = NO_DELTA;
    for _ in 0..n {
        segment(c, log, slot, &mut delta)?;
    }
    Ok(delta)
}

// Reads a slot's segments at a cursor.
#[tactic(auto, using(crate::proofs::SideLaws::delta_6, crate::proofs::SideLaws::nseg_on))]
fn slot_delta(c: &mut Cursor<'_>, log: &mut [u32], slot: usize) -> Result<Delta, Refusal>
    ensures { held_of (outcome_of result) c.new log.new ≡ over c.old (slot_delta_of c.old.bytes.now (standing c.old.place log.old) slot) }
{
    if slot > LFE {
        return Err(Why::BadArgument.at(c.place.pos));
    }
    let nseg = read_next(c, log, field(names::DELTNSEG, names::CPLDELTNSEG, 3, slot))?;
    segments(c, log, slot, nseg as usize + 1)
}

// Reads a slot's segments, deltnseg and one more than it says: 6 for the slot, then what a read is refused with.
pub fn read_delta(frame: &[u8], log: &mut [u32], place: Place, slot: usize) -> Moved<Delta>
    ensures { moved_of result log.new ≡ slot_delta_of frame.now (standing place log.old) slot }
{
    let mut c = Cursor {
        bytes: frame,
        place,
    };
    let answer = slot_delta(&mut c, log, slot);
    Moved {
        answer,
        place: c.place,
    }
}
