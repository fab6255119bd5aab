// The numbers of the names that the core itself logs, with the names of TS. Numbers below 256 are the core's: those not listed
// are kept for what comes later. A caller's own elements may have any number.

// exps[ch][0]: the absolute exponent of a full bandwidth channel (TS 6.1.3).
pub const ABSEXP: u32 = 1;

// exps[ch]: a group of its exponents.
pub const EXPS: u32 = 2;

// cplabsexp: the absolute exponent of coupling.
pub const CPLABSEXP: u32 = 3;

// cplexps: a group of its exponents.
pub const CPLEXPS: u32 = 4;

// lfeexps[0]: the absolute exponent of LFE.
pub const LFEABSEXP: u32 = 5;

// lfeexps: a group of its exponents.
pub const LFEEXPS: u32 = 6;

// deltnseg: how many delta segments a channel has, less one (TS 6.2.2.6).
pub const DELTNSEG: u32 = 16;

// deltoffst: how many bands before a segment are skipped.
pub const DELTOFFST: u32 = 17;

// deltlen: how many bands a segment has.
pub const DELTLEN: u32 = 18;

// deltba: a segment's bit allocation.
pub const DELTBA: u32 = 19;

// cpldeltnseg: the same of coupling.
pub const CPLDELTNSEG: u32 = 20;

// cpldeltoffst.
pub const CPLDELTOFFST: u32 = 21;

// cpldeltlen.
pub const CPLDELTLEN: u32 = 22;

// cpldeltba.
pub const CPLDELTBA: u32 = 23;

// auxbits: one span (document 01, "Cursor, log, tail").
pub const AUXBITS: u32 = 32;

// auxdatal: how many of auxbits are the user's.
pub const AUXDATAL: u32 = 33;

// auxdatae: whether auxdatal is there.
pub const AUXDATAE: u32 = 34;

// crcrsv: AC-3's reserved bit.
pub const CRCRSV: u32 = 35;

// encinfo: E-AC-3's, at the same place.
pub const ENCINFO: u32 = 36;

// crc2: the frame's last 16 bits.
pub const CRC2: u32 = 37;
