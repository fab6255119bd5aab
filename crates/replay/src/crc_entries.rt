// Entries of `crc`, which never refuses, over the bytes first.
use crate::numbers::Row;
use crate::{low, told};

// INIT
pub fn crc16(first: &[u8], args: Row) -> Row {
    told::answer(Ok(usize::from(crc::crc16(low::half(args[0]), first))))
}

// INIT N
pub fn zeros(args: Row) -> Row {
    told::answer(Ok(usize::from(crc::zeros(low::half(args[0]), args[1]))))
}
