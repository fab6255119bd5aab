// Entries of side information and block allocation, through their C functions. A state is 200 bytes, as in C.
ghost use Rattle.std.specs.Prelude.{◌+◌, ◌<◌, ◌≤◌};

use crate::numbers::Row;
use crate::{alloc_entries, lent, low, numbers, words};
use std::array;

// How many slots there are, and how many bytes they take.
const SLOTS: usize = 7;

const SLOT_BYTES: usize = SLOTS * 256;

// SECOND is the state. SLOT CODE BLOCK0
pub fn delta_code(second: &mut [u8], args: Row) -> Row {
    let [slot, code, block0, ..] = args;
    let mut state = lent::rows(second);
    let mut bit: usize = 0;
    let number = capi::state::zela_delta_code(
        &mut state,
        slot,
        low::word(code),
        block0 == 1,
        &mut bit,
    );
    lay_segments(&state, second);
    numbers::row(&[number as usize, bit])
}

// FIRST is the frame, SECOND the state, WORDS the log. POS LIMIT BLOCK COUNT SLOT; adds POS COUNT
pub fn read_delta(frame: &[u8], second: &mut [u8], log: &mut [u32], args: Row) -> Row {
    let [mut pos, limit, block, mut count, slot, ..] = args;
    let mut state = lent::rows(second);
    let mut bit: usize = 0;
    let number = capi::state::zela_read_delta(
        frame,
        log,
        &mut pos,
        limit,
        low::byte(block).cast_signed(),
        &mut count,
        &mut state,
        slot,
        &mut bit,
    );
    lay_segments(&state, second);
    numbers::row(&[number as usize, bit, 0, pos, count])
}

// FIRST is seven slots' exponents, which are left as the pointers, and LOG_ADD after them; SECOND is the state, WORDS are HEARING.
// FSCOD, and of each slot whether it is there, whether it has hebap, EXP_START EXP_END START END
pub fn allocate_block(first: &mut [u8], second: &[u8], hearing: &[u32], args: Row) -> Row {
    let state = lent::rows(second);
    let exponents = lent::rows(first);
    let mut halves = [0u16; words::ROOM];
    let mut bap = [[0u8; 256]; SLOTS];
    let mut bit: usize = 0;
    let number = capi::block::zela_allocate_block(
        &state,
        low::byte(args[0]),
        &flags(args, 1),
        &flags(args, 2),
        &exponents,
        &ranges(args),
        alloc_entries::narrow(hearing, &mut halves),
        first.get(SLOT_BYTES..).unwrap_or(first),
        &mut bap,
        &mut bit,
    );
    lent::lay_rows(&bap, first);
    numbers::row(&[number as usize, bit])
}

// Lays a state's segments alone, since a call changes no code.
fn lay_segments(state: &[[u8; 25]; 8], to: &mut [u8]) {
    if let Some(segments) = to.get_mut(25..) {
        lent::lay_rows(&state[1..], segments);
    }
}

// A flag of each slot, the first at a place.
fn flags(args: Row, at: usize) -> [bool; SLOTS]
    requires { at + 37 ≤ 48 }
{
    array::from_fn(|slot| args[at + 6 * slot] == 1)
}

// The four ends of each slot's range.
fn ranges(args: Row) -> [[usize; 4]; SLOTS] {
    array::from_fn(
        |slot|
            requires { slot < 7 }
        { range_at(args, 3 + 6 * slot) },
    )
}

fn range_at(args: Row, at: usize) -> [usize; 4]
    requires { at + 4 ≤ 48 }
{
    array::from_fn(|k| args[at + k])
}
