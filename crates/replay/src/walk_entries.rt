// Entries of the mantissa walks, through their C functions: the frame is the bytes first, the pointers the 256 bytes second. A walk
// looks at no block and no count, which stay.
use crate::numbers::Row;
use crate::{lent, low, numbers};

// POS LIMIT BLOCK COUNT START END G1 G2 G4; adds POS COUNT G1 G2 G4
pub fn conventional(frame: &[u8], second: &[u8], args: Row) -> Row {
    let [mut pos, limit, _, count, start, end, g1, g2, g4, ..] = args;
    let bap = lent::array(second);
    let mut g1 = low::byte(g1);
    let mut g2 = low::byte(g2);
    let mut g4 = low::byte(g4);
    let mut bit: usize = 0;
    let number = capi::mantissas::zela_conventional(
        frame, &mut pos, limit, &bap, start, end, &mut g1, &mut g2, &mut g4, &mut bit,
    );
    numbers::row(&[
        number as usize,
        bit,
        0,
        pos,
        count,
        usize::from(g1),
        usize::from(g2),
        usize::from(g4),
    ])
}

// POS LIMIT BLOCK COUNT START END, whose value is the tags; adds POS COUNT
pub fn aht(frame: &[u8], second: &[u8], args: Row) -> Row {
    let [mut pos, limit, _, count, start, end, ..] = args;
    let hebap = lent::array(second);
    let mut tags: usize = 0;
    let mut bit: usize = 0;
    let number = capi::mantissas::zela_aht(
        frame, &mut pos, limit, &hebap, start, end, &mut tags, &mut bit,
    );
    numbers::row(&[number as usize, bit, tags, pos, count])
}
