// The exponent sets of `exponents`.
ghost use Rattle.std.specs.Prelude.{◌≡◌};
ghost use Rattle.syntax.specs.Reads.{standing};
ghost use Rattle.exponents.specs.Reads.{read_exponents_of};
ghost use Rattle.capi.specs.Standings.{place_of};
ghost use Rattle.capi.specs.Sets.{set_of, unpacked, unpacked_of};

use crate::place_of;
use convention::done;
use tables::Bin;

// exponents::read_exponents.
pub fn zela_read_exponents(
    frame: &[u8],
    log: &mut [u32],
    pos: &mut usize,
    limit: usize,
    block: i8,
    count: &mut usize,
    slot: u8,
    strategy: u8,
    start: usize,
    end: usize,
    exponents: &mut [u8; 256],
    exp_start: &mut usize,
    exp_end: &mut usize,
    bit: &mut usize,
) -> u8
    ensures { unpacked result bit.new pos.new count.new log.new (set_of exponents.new exp_start.new exp_end.new) ≡ unpacked_of (read_exponents_of frame.now (standing (place_of pos.old limit block count.old) log.old) slot strategy start end) }
{
    let place = place_of(*pos, limit, block, *count);
    let read = exponents::read_exponents(frame, log, place, slot, strategy, Bin(start), Bin(end));
    *pos = read.place.pos;
    *count = read.place.count;
    *exp_start = read.set.start;
    *exp_end = read.set.end;
    // By way of a local: no proof covers the store of a field that is an array.
    let exp = read.set.exp;
    *exponents = exp;
    done(read.answer, bit)
}
