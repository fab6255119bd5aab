// Entries of frames, through their C functions: the frame is the bytes first. EAC3 is 1 for E-AC-3.
use crate::numbers::Row;
use crate::{low, numbers};

// Adds EAC3 BYTES
pub fn probe(frame: &[u8]) -> Row {
    let mut eac3 = false;
    let mut bytes: usize = 0;
    let mut bit: usize = 0;
    let number = capi_bytes::zela_probe(frame, &mut eac3, &mut bytes, &mut bit);
    numbers::row(&[number as usize, bit, 0, usize::from(eac3), bytes])
}

// WORDS are the log. POS LIMIT BLOCK COUNT TOTAL EAC3; adds POS COUNT BLOCK, and where the user bits start and how many they are
pub fn read_tail(frame: &[u8], log: &mut [u32], args: Row) -> Row {
    let [mut pos, limit, block, mut count, total, eac3, ..] = args;
    let mut block = low::byte(block).cast_signed();
    let mut start: usize = 0;
    let mut width: usize = 0;
    let mut bit: usize = 0;
    let number = capi::tail::zela_read_tail(
        frame,
        log,
        &mut pos,
        limit,
        &mut block,
        &mut count,
        total,
        eac3 == 1,
        &mut start,
        &mut width,
        &mut bit,
    );
    numbers::row(&[
        number as usize,
        bit,
        0,
        pos,
        count,
        low::of_signed(i16::from(block)),
        start,
        width,
    ])
}

// EAC3; adds CRC1 CRC2, 1 for a good one
pub fn crc_status(frame: &[u8], args: Row) -> Row {
    let mut crc1 = false;
    let mut crc2 = false;
    let mut bit: usize = 0;
    let number = capi_bytes::zela_crc_status(frame, args[0] == 1, &mut crc1, &mut crc2, &mut bit);
    numbers::row(&[
        number as usize,
        bit,
        0,
        usize::from(crc1),
        usize::from(crc2),
    ])
}

// EAC3
pub fn repair(frame: &mut [u8], args: Row) -> Row {
    let mut bit: usize = 0;
    let number = capi_bytes::zela_repair(frame, args[0] == 1, &mut bit);
    numbers::row(&[number as usize, bit])
}
