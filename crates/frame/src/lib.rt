// The tail of a frame (TS 4.3.4, 4.3.5, E.1.2.5, E.1.2.6): auxbits, auxdatal, auxdatae, the reserved bit and crc2 are read and logged, and
// then the elements of the whole frame must tile it.
#![tactic(auto)]

ghost use Rattle.std.specs.Prelude.{◌≡◌, true, ◌+◌, ◌*◌, ◌≤◌, length};
ghost use Rattle.refusal.specs.Refusals.{outcome_of, placed};
ghost use Rattle.syntax.specs.declared.Role.TheVariants.{AuxBits};
ghost use Rattle.syntax.specs.Names as spelled;
ghost use Rattle.syntax.specs.Reads.{standing, moved_of, span_of};
ghost use Rattle.syntax.specs.Tiling.{tiling_of};
ghost use Rattle.syntax.specs.Cursors.{held_of, over};
ghost use Rattle.frame.specs.Tail.{unfit, last_bits, has_aux, behind, fit_of, outside, tail_ask, reserved_name, length_of, last_of, elements_of, tail_of};

use probe::Codec;
use refusal::{Refusal, Why};
use syntax::cursor::{Cursor, read_next};
use syntax::{Ask, Moved, Place, Role, check_tiling, is_unsound, names, passes, room_of, span};

// The last bits of a frame: auxdatae, one reserved bit, and the 16 of crc2.
const LAST: usize = 18;

// The bits of auxdatal, which stand before those.
const AUXDATAL: usize = 14;

// A stretch of bits: where it starts, and how many it has.
#[derive(Clone, Copy)]
pub struct Stretch {
    pub start: usize,
    pub width: usize,
}

// What reading a tail answers, and the place after it, taken or refused: the bits of auxbits that are the user's; the rest is padding.
pub type Tailed = Moved<Stretch>;

// Whether a tail can't be asked for so: its total, its place or the count of its log.
// The total stands beside the frame, since it is the caller's.
fn is_unfit(len: usize, words: usize, place: Place, total: usize) -> bool
    ensures { result ≡ unfit len words place total }
{
    place.limit < total || is_unsound(len, place) || room_of(words) < place.count
}

// Whether auxdatae is 1. A bit of the frame is never refused.
#[tactic(auto, unfolding(crate::specs::Tail::has_aux))]
fn has_aux(frame: &[u8], total: usize) -> bool
    requires { (last_bits ≤ total) × (total ≤ 8 * length frame.now) }
    ensures { result ≡ has_aux frame.now total }
{
    bits::get(frame, total - LAST, 1).unwrap_or(0) == 1
}

// How many bits stand behind auxbits.
fn bits_behind(aux: bool) -> usize
    ensures { result ≡ behind aux }
{
    if aux { AUXDATAL + LAST } else { LAST }
}

// Whether there is room for a tail: 6, then 16, then 17 where auxdatal would begin before the cursor.
// pos has a name, since it is used four times.
fn fit(frame: &[u8], words: usize, place: Place, total: usize) -> Result<(), Refusal>
    ensures { outcome_of result ≡ fit_of frame.now words place total }
{
    let pos = place.pos;
    if is_unfit(frame.len(), words, place, total) {
        return Err(Why::BadArgument.at(pos));
    }
    let whole = Place {
        limit: total,
        ..place
    };
    if passes(whole, LAST) {
        return Err(Why::NoRoomForTail.at(pos));
    }
    let n = bits_behind(has_aux(frame, total));
    if passes(whole, n) {
        return Err(Why::BadAux.at(pos));
    }
    Ok(())
}

// The place outside of any block.
fn outside_blocks(place: Place) -> Place
    ensures { result ≡ outside place }
{
    Place { block: -1, ..place }
}

// An element of the tail.
// syntax's `span_ask` once more, which is private there: a public one, with its theorem and edits, is no plainer than four fields.
fn ask_of(name: u32, role: Role, width: usize) -> Ask
    ensures { result ≡ tail_ask name role width }
{
    Ask {
        name,
        role,
        index: -1,
        width,
    }
}

// The name of the reserved bit.
fn reserved_name(codec: Codec) -> u32
    ensures { result ≡ reserved_name codec }
{
    match codec {
        Codec::Ac3 => names::CRCRSV,
        Codec::Eac3 => names::ENCINFO,
    }
}

// auxbits, one span.
fn read_bits(c: &mut Cursor<'_>, log: &mut [u32], width: usize) -> Result<(), Refusal>
    ensures { held_of (outcome_of result) c.new log.new ≡ over c.old (span_of (length c.old.bytes.now) (standing c.old.place log.old) spelled.auxbits AuxBits width) }
{
    let moved = span(c.bytes, log, c.place, names::AUXBITS, Role::AuxBits, width);
    c.place = moved.place;
    moved.answer
}

// auxdatal: it is read and logged; 17 where it exceeds auxbits.
fn read_length(c: &mut Cursor<'_>, log: &mut [u32], width: usize) -> Result<usize, Refusal>
    ensures { held_of (outcome_of result) c.new log.new ≡ over c.old (length_of c.old.bytes.now true width (standing c.old.place log.old)) }
{
    let length = read_next(c, log, ask_of(names::AUXDATAL, Role::AuxDataL, AUXDATAL))? as usize;
    if width < length {
        return Err(Why::BadAux.at(c.place.pos));
    }
    Ok(length)
}

// auxdatal where there is one, else 0.
fn aux_length(
    c: &mut Cursor<'_>,
    log: &mut [u32],
    aux: bool,
    width: usize,
) -> Result<usize, Refusal>
    ensures { held_of (outcome_of result) c.new log.new ≡ over c.old (length_of c.old.bytes.now aux width (standing c.old.place log.old)) }
{
    if aux {
        return read_length(c, log, width);
    }
    Ok(0)
}

// auxdatae, the reserved bit and crc2, whose value is answered.
fn last_three(c: &mut Cursor<'_>, log: &mut [u32], codec: Codec) -> Result<u32, Refusal>
    ensures { held_of (outcome_of result) c.new log.new ≡ over c.old (last_of c.old.bytes.now codec (standing c.old.place log.old)) }
{
    let rsv = reserved_name(codec);
    read_next(c, log, ask_of(names::AUXDATAE, Role::AuxDataE, 1))?;
    read_next(c, log, ask_of(rsv, Role::CrcRsv, 1))?;
    read_next(c, log, ask_of(names::CRC2, Role::Crc2, 16))
}

// 18 at the frame's end where the elements of the log don't tile the frame.
fn check_frame(log: &[u32], count: usize, total: usize) -> Result<(), Refusal>
    ensures { outcome_of result ≡ placed total (tiling_of log.now count total) }
{
    check_tiling(log, count, total).map_err(|r| r.why.at(total))
}

// The elements of a tail that there is room for, which tile the frame with those before them: where the user bits stand, the one place that
// says so.
// Total and codec come apart, as C hands them over.
fn elements(
    c: &mut Cursor<'_>,
    log: &mut [u32],
    total: usize,
    codec: Codec,
) -> Result<Stretch, Refusal>
    requires { (last_bits ≤ total) × (total ≤ 8 * length c.old.bytes.now) × (c.old.place.pos + behind (has_aux c.old.bytes.now total) ≤ total) }
    ensures { held_of (outcome_of result) c.new log.new ≡ over c.old (elements_of c.old.bytes.now total codec (standing c.old.place log.old)) }
{
    let aux = has_aux(c.bytes, total);
    let start = c.place.pos;
    let width = total - bits_behind(aux) - start;
    read_bits(c, log, width)?;
    let length = aux_length(c, log, aux, width)?;
    last_three(c, log, codec)?;
    check_frame(log, c.place.count, total)?;
    Ok(Stretch {
        start,
        width: length,
    })
}

// Reads the tail of a frame of total bits from the end of its audio on: 6, then 16, then 17, then the elements, with 19 where the log is
// full and 17 after auxdatal, and last 18.
pub fn read_tail(frame: &[u8], log: &mut [u32], place: Place, total: usize, codec: Codec) -> Tailed
    ensures { moved_of result log.new ≡ tail_of frame.now (standing place log.old) total codec }
{
    let mut c = Cursor {
        bytes: frame,
        place,
    };
    let answer = read_tail_at(&mut c, log, total, codec);
    Moved {
        answer,
        place: c.place,
    }
}

// The same at a cursor that is lent, which goes to where the reading ends.
// Beside `read_tail`, which C calls with slices.
pub fn read_tail_at(
    c: &mut Cursor<'_>,
    log: &mut [u32],
    total: usize,
    codec: Codec,
) -> Result<Stretch, Refusal>
    ensures { held_of (outcome_of result) c.new log.new ≡ over c.old (tail_of c.old.bytes.now (standing c.old.place log.old) total codec) }
{
    fit(c.bytes, log.len(), c.place, total)?;
    c.place = outside_blocks(c.place);
    elements(c, log, total, codec)
}
