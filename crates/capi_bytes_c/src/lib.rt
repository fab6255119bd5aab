// What C and Rust link of the core, as far as it needs no cursor: each function is that of `capi_bytes`, with the same clauses, under the
// name and with the arguments that include/zelamodurk.h declares.
// C links these: each is the function of `capi_bytes` once more, for its name and its arguments.
#![tactic(auto)]

ghost use Rattle.std.specs.Prelude.{◌≡◌, false, replicate};
ghost use Rattle.bits.specs.Answers.{get_of, set_of, range_eq_of, range_zero_of};
ghost use Rattle.crc.specs.Crc.{crc_of};
ghost use Rattle.probe.specs.Probe.{probe_of};
ghost use Rattle.repair.specs.Repair.{crc_status_of, repair_of};
ghost use Rattle.convention.specs.Replies.{reply, reply_of, running, running_of};
ghost use Rattle.convention.specs.Codecs.{codec_from};
ghost use Rattle.capi_bytes.specs.Frames.{opening, opening_of, checks, checks_of};

// capi_bytes::zela_bits_get.
#[unsafe(no_mangle)]
pub extern "C" fn zela_bits_get(
    bytes: &[u8],
    pos: usize,
    n: usize,
    value: &mut u32,
    bit: &mut usize,
) -> u8
    ensures { reply result value.new bit.new ≡ reply_of 0 (get_of bytes.now pos n) }
{
    capi_bytes::zela_bits_get(bytes, pos, n, value, bit)
}

// capi_bytes::zela_bits_set.
#[unsafe(no_mangle)]
pub extern "C" fn zela_bits_set(
    bytes: &mut [u8],
    pos: usize,
    n: usize,
    value: u32,
    bit: &mut usize,
) -> u8
    ensures { running result bit.new bytes.new ≡ running_of (set_of bytes.old pos n value) }
{
    capi_bytes::zela_bits_set(bytes, pos, n, value, bit)
}

// capi_bytes::zela_bits_range_eq.
#[unsafe(no_mangle)]
pub extern "C" fn zela_bits_range_eq(
    x: &[u8],
    a: usize,
    y: &[u8],
    b: usize,
    n: usize,
    is: &mut bool,
    bit: &mut usize,
) -> u8
    ensures { reply result is.new bit.new ≡ reply_of false (range_eq_of x.now a y.now b n) }
{
    capi_bytes::zela_bits_range_eq(x, a, y, b, n, is, bit)
}

// capi_bytes::zela_bits_range_zero.
#[unsafe(no_mangle)]
pub extern "C" fn zela_bits_range_zero(
    x: &[u8],
    a: usize,
    n: usize,
    is: &mut bool,
    bit: &mut usize,
) -> u8
    ensures { reply result is.new bit.new ≡ reply_of false (range_zero_of x.now a n) }
{
    capi_bytes::zela_bits_range_zero(x, a, n, is, bit)
}

// capi_bytes::zela_crc16.
#[unsafe(no_mangle)]
pub extern "C" fn zela_crc16(init: u16, bytes: &[u8], value: &mut u16) -> u8
    ensures { (result ≡ 0) × (value.new ≡ crc_of init bytes.now) }
{
    capi_bytes::zela_crc16(init, bytes, value)
}

// capi_bytes::zela_crc16_zeros.
#[unsafe(no_mangle)]
pub extern "C" fn zela_crc16_zeros(init: u16, n: usize, value: &mut u16) -> u8
    ensures { (result ≡ 0) × (value.new ≡ crc_of init (replicate n 0)) }
{
    capi_bytes::zela_crc16_zeros(init, n, value)
}

// capi_bytes::zela_probe.
#[unsafe(no_mangle)]
pub extern "C" fn zela_probe(
    frame: &[u8],
    eac3: &mut bool,
    bytes: &mut usize,
    bit: &mut usize,
) -> u8
    ensures { reply result (opening eac3.new bytes.new) bit.new ≡ reply_of (opening false 0) (opening_of (probe_of frame.now)) }
{
    capi_bytes::zela_probe(frame, eac3, bytes, bit)
}

// capi_bytes::zela_crc_status.
#[unsafe(no_mangle)]
pub extern "C" fn zela_crc_status(
    frame: &[u8],
    eac3: bool,
    crc1: &mut bool,
    crc2: &mut bool,
    bit: &mut usize,
) -> u8
    ensures { reply result (checks crc1.new crc2.new) bit.new ≡ reply_of (checks false false) (checks_of (crc_status_of (codec_from eac3) frame.now)) }
{
    capi_bytes::zela_crc_status(frame, eac3, crc1, crc2, bit)
}

// capi_bytes::zela_repair.
#[unsafe(no_mangle)]
pub extern "C" fn zela_repair(frame: &mut [u8], eac3: bool, bit: &mut usize) -> u8
    ensures { running result bit.new frame.new ≡ running_of (repair_of (codec_from eac3) frame.old) }
{
    capi_bytes::zela_repair(frame, eac3, bit)
}
