// The allocation state of `blocks`, in a caller's 200 bytes: eight rows of 25, first the codes, and then the segments of each slot.
ghost use Rattle.std.specs.Prelude.{◌≡◌, ◌+◌, ◌≤◌};
ghost use Rattle.refusal.specs.Refusals.{taken, outcome_of, and_then, leaves};
ghost use Rattle.syntax.specs.Reads.{standing};
ghost use Rattle.tables.specs.Slots.{no_slot};
ghost use Rattle.alloc.specs.Table.{from};
ghost use Rattle.blocks.specs.Block.{segments_at};
ghost use Rattle.blocks.specs.Side.{with_delta, delta_code_of, read_delta_of};
ghost use Rattle.capi.specs.Standings.{place_of};
ghost use Rattle.capi.specs.States.{row_at, Whole, bytes_at, segments_from, state_from, row_of, rows_after, kept, kept_of, gathered, gathered_of};

use crate::place_of;
use alloc::Leak;
use blocks::{AllocState, Bai, NO_DELTA};
use convention::tell;
use refusal::Refusal;
use tables::{Delta, LFE};

// N bytes of a row.
#[tactic(auto, using(crate::proofs::Rows::part_is))]
fn bytes_at<const N: usize>(row: &[u8; 25], at: usize) -> [u8; N]
    requires { at + N ≤ 25 }
    ensures { result ≡ bytes_at row.now at N }
{
    let mut bytes = [0; N];
    bytes.copy_from_slice(&row[at..at + N]);
    bytes
}

// The segments in a row.
#[tactic(auto, unfolding(crate::specs::States::segments_from))]
fn segments_from(row: &[u8; 25]) -> Delta
    ensures { result ≡ segments_from row.now }
{
    Delta {
        count: row[0],
        offset: bytes_at(row, 1),
        len: bytes_at(row, 9),
        ba: bytes_at(row, 17),
    }
}

// The segments of each slot.
#[tactic(auto, using(alloc::proofs::TableLaws::fill_start, alloc::proofs::TableLaws::fill_turn))]
fn deltas_from(rows: &[[u8; 25]; 8]) -> [Delta; 7]
    ensures { result ≡ from 1 7 (λ i. segments_from (row_at rows.now i)) }
{
    let mut deltas = [NO_DELTA; 7];
    for slot in 0..7 {
        deltas[slot] = segments_from(&rows[slot + 1]);
    }
    deltas
}

// The state in eight rows.
// By place: C lays the rows in bytes, so each field is taken from its own.
#[tactic(auto, unfolding(crate::specs::States::state_from))]
pub fn state_from(rows: &[[u8; 25]; 8]) -> AllocState
    ensures { result ≡ state_from rows.now }
{
    let codes = &rows[0];
    let bai = Bai {
        sdcycod: codes[1],
        fdcycod: codes[2],
        sgaincod: codes[3],
        dbpbcod: codes[4],
        floorcod: codes[5],
    };
    let cplleak = Leak {
        cplfleak: codes[23],
        cplsleak: codes[24],
    };
    AllocState {
        bai: (codes[0] != 0).then_some(bai),
        csnroffst: (codes[6] != 0).then_some(codes[7]),
        fsnroffst: bytes_at(codes, 8),
        fgaincod: bytes_at(codes, 15),
        cplleak: (codes[22] != 0).then_some(cplleak),
        delta: deltas_from(rows),
    }
}

// A slot's segments as a row.
fn row_of(d: Delta) -> [u8; 25]
    ensures { result ≡ row_of d }
{
    let mut row = [0; 25];
    row[0] = d.count;
    row[1..9].copy_from_slice(&d.offset);
    row[9..17].copy_from_slice(&d.len);
    row[17..25].copy_from_slice(&d.ba);
    row
}

// A slot's segments. A slot that there is not has none.
#[tactic(auto, using(crate::proofs::Rows::segments_in, crate::proofs::Rows::segments_out))]
fn segments_at(rows: &[[u8; 25]; 8], slot: usize) -> Delta
    ensures { result ≡ segments_at (state_from rows.now) slot }
{
    if slot > LFE {
        return NO_DELTA;
    }
    segments_from(&rows[slot + 1])
}

// Whether a slot has no row. The rows come by value: a value's type tells the proof that they are eight of 25 bytes each, which a reference does not.
fn lacks_row(rows: [[u8; 25]; 8], slot: usize) -> bool
    ensures { (result ≡ no_slot slot) × Whole rows }
{
    slot > LFE
}

// What a call answers that leaves a slot other segments: they are in its row then, and a refused call leaves all rows as they are.
#[tactic(auto, using(crate::proofs::Rows::kept_put, crate::proofs::Rows::put_in, crate::proofs::Rows::put_out))]
fn put_segments(
    rows: &mut [[u8; 25]; 8],
    slot: usize,
    answer: Result<Delta, Refusal>,
    bit: &mut usize,
) -> u8
    ensures { let st = state_from rows.old in kept result bit.new rows.new ≡ kept_of rows.old (leaves st (and_then (outcome_of answer) (λ d. taken (with_delta st slot d)))) }
{
    let lacks = lacks_row(*rows, slot);
    match answer {
        Ok(delta) => {
            if !lacks {
                rows[slot + 1] = row_of(delta);
            }
            *bit = 0;
            0
        }
        Err(r) => tell(r, bit),
    }
}

// blocks::delta_code.
#[tactic(auto, unfolding(blocks::specs::Side::delta_code_of))]
pub fn zela_delta_code(
    state: &mut [[u8; 25]; 8],
    slot: usize,
    code: u32,
    block0: bool,
    bit: &mut usize,
) -> u8
    ensures { kept result bit.new state.new ≡ kept_of state.old (delta_code_of (state_from state.old) slot code block0) }
{
    let before = segments_at(state, slot);
    put_segments(
        state,
        slot,
        blocks::delta_code(before, slot, code, block0),
        bit,
    )
}

// blocks::read_delta.
pub fn zela_read_delta(
    frame: &[u8],
    log: &mut [u32],
    pos: &mut usize,
    limit: usize,
    block: i8,
    count: &mut usize,
    state: &mut [[u8; 25]; 8],
    slot: usize,
    bit: &mut usize,
) -> u8
    ensures { gathered result bit.new pos.new count.new log.new state.new ≡ gathered_of state.old (read_delta_of frame.now (standing (place_of pos.old limit block count.old) log.old) (state_from state.old) slot) }
{
    let place = place_of(*pos, limit, block, *count);
    let read = blocks::read_delta(frame, log, place, slot);
    *pos = read.place.pos;
    *count = read.place.count;
    put_segments(state, slot, read.answer, bit)
}
