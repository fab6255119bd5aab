// The tail of a frame, by `frame`.
ghost use Rattle.std.specs.Prelude.{◌≡◌};
ghost use Rattle.syntax.specs.Reads.{standing};
ghost use Rattle.frame.specs.Tail.{tail_of};
ghost use Rattle.convention.specs.Codecs.{codec_from};
ghost use Rattle.capi.specs.Standings.{place_of};
ghost use Rattle.capi.specs.Tails.{stretch, closed, closed_of};

use crate::place_of;
use convention::{codec_from, done};
use frame::Stretch;

// No user bits.
const NO_STRETCH: Stretch = Stretch { start: 0, width: 0 };

// frame::read_tail.
pub fn zela_read_tail(
    frame: &[u8],
    log: &mut [u32],
    pos: &mut usize,
    limit: usize,
    block: &mut i8,
    count: &mut usize,
    total: usize,
    eac3: bool,
    user_start: &mut usize,
    user_bits: &mut usize,
    bit: &mut usize,
) -> u8
    ensures { closed result (stretch user_start.new user_bits.new) bit.new pos.new block.new count.new log.new ≡ closed_of (tail_of frame.now (standing (place_of pos.old limit block.old count.old) log.old) total (codec_from eac3)) }
{
    let place = place_of(*pos, limit, *block, *count);
    let read = frame::read_tail(frame, log, place, total, codec_from(eac3));
    *pos = read.place.pos;
    *block = read.place.block;
    *count = read.place.count;
    let user = read.answer.unwrap_or(NO_STRETCH);
    *user_start = user.start;
    *user_bits = user.width;
    done(read.answer.and(Ok(())), bit)
}
