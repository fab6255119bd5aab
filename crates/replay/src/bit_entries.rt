// Entries of `bits`, over the bytes first and second.
use crate::numbers::Row;
use crate::{low, told};

// POS N
pub fn get(first: &[u8], args: Row) -> Row {
    told::answer(bits::get(first, args[0], args[1]).map(|v| v as usize))
}

// POS N V
pub fn set(first: &mut [u8], args: Row) -> Row {
    told::answer(bits::set(first, args[0], args[1], low::word(args[2])).map(|()| 0))
}

// A B N
pub fn range_eq(first: &[u8], second: &[u8], args: Row) -> Row {
    told::answer(bits::range_eq(first, args[0], second, args[1], args[2]).map(usize::from))
}

// A N
pub fn range_zero(first: &[u8], args: Row) -> Row {
    told::answer(bits::range_zero(first, args[0], args[1]).map(usize::from))
}
