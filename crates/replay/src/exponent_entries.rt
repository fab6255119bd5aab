// The entry of exponents, through their C function: the frame is the bytes first, the log the words. The 256 bytes second are
// left with the exponents.
use crate::numbers::Row;
use crate::{lent, low, numbers};

// POS LIMIT BLOCK COUNT SLOT STRATEGY START END; adds POS COUNT EXP_START EXP_END
pub fn read_exponents(frame: &[u8], second: &mut [u8], log: &mut [u32], args: Row) -> Row {
    let [
        mut pos,
        limit,
        block,
        mut count,
        slot,
        strategy,
        start,
        end,
        ..
    ] = args;
    let mut exponents = [0u8; 256];
    let mut exp_start: usize = 0;
    let mut exp_end: usize = 0;
    let mut bit: usize = 0;
    let number = capi::sets::zela_read_exponents(
        frame,
        log,
        &mut pos,
        limit,
        low::byte(block).cast_signed(),
        &mut count,
        low::byte(slot),
        low::byte(strategy),
        start,
        end,
        &mut exponents,
        &mut exp_start,
        &mut exp_end,
        &mut bit,
    );
    lent::lay(&exponents, second);
    numbers::row(&[number as usize, bit, 0, pos, count, exp_start, exp_end])
}
