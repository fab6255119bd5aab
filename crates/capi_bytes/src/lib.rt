// The core for C and Rust, as far as it needs no cursor: bits, CRC-16, and a frame's header and checksums. Thin functions over
// the crates' public ones; `convention` has what a caller is told.
// A flag for the codec, a number for a refusal and room beside room for what is told are C's: include/zelamodurk.h declares them so.
#![tactic(auto)]

ghost use Rattle.std.specs.Prelude.{◌≡◌, false, replicate};
ghost use Rattle.bits.specs.Answers.{get_of, set_of, range_eq_of, range_zero_of};
ghost use Rattle.crc.specs.Crc.{crc_of};
ghost use Rattle.probe.specs.Probe.{probe_of};
ghost use Rattle.repair.specs.Repair.{crc_status_of, repair_of};
ghost use Rattle.convention.specs.Replies.{reply, reply_of, running, running_of};
ghost use Rattle.convention.specs.Codecs.{codec_from};
ghost use Rattle.capi_bytes.specs.Frames.{opening, opening_of, checks, checks_of};

use convention::{codec_from, done, got, is_eac3, judged, reply};
use probe::{Codec, Header};
use repair::Status;

// bits::get.
pub fn zela_bits_get(bytes: &[u8], pos: usize, n: usize, value: &mut u32, bit: &mut usize) -> u8
    ensures { reply result value.new bit.new ≡ reply_of 0 (get_of bytes.now pos n) }
{
    got(bits::get(bytes, pos, n), value, bit)
}

// bits::set.
pub fn zela_bits_set(bytes: &mut [u8], pos: usize, n: usize, value: u32, bit: &mut usize) -> u8
    ensures { running result bit.new bytes.new ≡ running_of (set_of bytes.old pos n value) }
{
    done(bits::set(bytes, pos, n, value), bit)
}

// bits::range_eq.
pub fn zela_bits_range_eq(
    x: &[u8],
    a: usize,
    y: &[u8],
    b: usize,
    n: usize,
    is: &mut bool,
    bit: &mut usize,
) -> u8
    ensures { reply result is.new bit.new ≡ reply_of false (range_eq_of x.now a y.now b n) }
{
    judged(bits::range_eq(x, a, y, b, n), is, bit)
}

// bits::range_zero.
pub fn zela_bits_range_zero(x: &[u8], a: usize, n: usize, is: &mut bool, bit: &mut usize) -> u8
    ensures { reply result is.new bit.new ≡ reply_of false (range_zero_of x.now a n) }
{
    judged(bits::range_zero(x, a, n), is, bit)
}

// crc::crc16.
pub fn zela_crc16(init: u16, bytes: &[u8], value: &mut u16) -> u8
    ensures { (result ≡ 0) × (value.new ≡ crc_of init bytes.now) }
{
    *value = crc::crc16(init, bytes);
    0
}

// crc::zeros.
pub fn zela_crc16_zeros(init: u16, n: usize, value: &mut u16) -> u8
    ensures { (result ≡ 0) × (value.new ≡ crc_of init (replicate n 0)) }
{
    *value = crc::zeros(init, n);
    0
}

// probe::probe.
pub fn zela_probe(frame: &[u8], eac3: &mut bool, bytes: &mut usize, bit: &mut usize) -> u8
    ensures { reply result (opening eac3.new bytes.new) bit.new ≡ reply_of (opening false 0) (opening_of (probe_of frame.now)) }
{
    // What is told of a frame that is refused.
    let mut header = Header {
        codec: Codec::Ac3,
        bytes: 0,
    };
    let code = reply(probe::probe(frame), header, &mut header, bit);
    *eac3 = is_eac3(header.codec);
    *bytes = header.bytes;
    code
}

// repair::crc_status. E-AC-3 has no crc1.
pub fn zela_crc_status(
    frame: &[u8],
    eac3: bool,
    crc1: &mut bool,
    crc2: &mut bool,
    bit: &mut usize,
) -> u8
    ensures { reply result (checks crc1.new crc2.new) bit.new ≡ reply_of (checks false false) (checks_of (crc_status_of (codec_from eac3) frame.now)) }
{
    // What is told of a frame that is refused.
    let mut status = Status::Both(false, false);
    let code = reply(
        repair::crc_status(codec_from(eac3), frame),
        status,
        &mut status,
        bit,
    );
    (*crc1, *crc2) = match status {
        Status::Both(first, second) => (first, second),
        Status::Second(second) => (false, second),
    };
    code
}

// repair::repair.
pub fn zela_repair(frame: &mut [u8], eac3: bool, bit: &mut usize) -> u8
    ensures { running result bit.new frame.new ≡ running_of (repair_of (codec_from eac3) frame.old) }
{
    done(repair::repair(codec_from(eac3), frame), bit)
}
