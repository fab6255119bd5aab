// The low bits of a number, as an argument of a narrower type. A negative one is in two's complement, which `cast_signed` reads.
// Each is a line: a trait would need an impl with that line for each type.

pub fn byte(x: usize) -> u8 {
    (x & 0xff) as u8
}

pub fn half(x: usize) -> u16 {
    (x & 0xffff) as u16
}

pub fn word(x: usize) -> u32 {
    (x & 0xffff_ffff) as u32
}

// The way back, in 16 bits.
pub fn of_signed(x: i16) -> usize {
    usize::from(x.cast_unsigned())
}
