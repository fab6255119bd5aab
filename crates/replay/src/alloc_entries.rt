// Entries of `alloc`: the exponents are the bytes first, LOG_ADD the bytes second, HEARING the words. The pointers are left
// where the exponents stood.
ghost use Rattle.std.specs.Prelude.{◌+◌, ◌≤◌};

use crate::numbers::Row;
use crate::{lent, low, told, words};
use alloc::{Codes, Leak};
use std::array;
use tables::{Bin, Delta};

// START END CODES LEAK DELTA HIGH, which is 1 for hebap
pub fn allocate(first: &mut [u8], second: &[u8], hearing: &[u32], args: Row) -> Row {
    let exponents = lent::array(first);
    let mut halves = [0u16; words::ROOM];
    let mut bap = [0u8; 256];
    let answer = alloc::allocate(
        &exponents,
        Bin(args[0]),
        Bin(args[1]),
        codes(args),
        leak(args),
        delta(args),
        tables::pointers_by(args[39] == 1),
        narrow(hearing, &mut halves),
        second,
        &mut bap,
    );
    lent::lay(&bap, first);
    told::answer(answer.map(|()| 0))
}

// The low halves of words, in the room for them: none where they don't fit.
pub fn narrow<'a>(words: &[u32], room: &'a mut [u16; words::ROOM]) -> &'a [u16] {
    let Some(halves) = room.get_mut(..words.len()) else {
        return &[];
    };
    for (half, word) in halves.iter_mut().zip(words) {
        *half = low::half(*word as usize);
    }
    halves
}

// sdcycod, fdcycod, sgaincod, dbpbcod, floorcod, fgaincod, csnroffst, fsnroffst, fscod
// By index, each cut to its low bits.
fn codes(args: Row) -> Codes {
    Codes {
        sdcycod: low::byte(args[2]),
        fdcycod: low::byte(args[3]),
        sgaincod: low::byte(args[4]),
        dbpbcod: low::byte(args[5]),
        floorcod: low::byte(args[6]),
        fgaincod: low::byte(args[7]),
        csnroffst: low::byte(args[8]),
        fsnroffst: low::byte(args[9]),
        fscod: low::byte(args[10]),
    }
}

// 1 or 0, cplfleak, cplsleak
fn leak(args: Row) -> Option<Leak> {
    if args[11] != 1 {
        return None;
    }
    Some(Leak {
        cplfleak: low::byte(args[12]),
        cplsleak: low::byte(args[13]),
    })
}

// How many segments there are, and the offsets, lengths and adjustments of eight.
fn delta(args: Row) -> Delta {
    Delta {
        count: low::byte(args[14]),
        offset: eight(args, 15),
        len: eight(args, 23),
        ba: eight(args, 31),
    }
}

// Eight numbers from a place on.
// Where a row's numbers stand is the format's: each function says how many it takes.
fn eight(args: Row, at: usize) -> [u8; 8]
    requires { at + 8 ≤ 48 }
{
    array::from_fn(|k| low::byte(args[at + k]))
}
