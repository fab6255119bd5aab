// The cursor as one value: it looks into the caller's bytes and never copies them. Whoever has plain slices and a place needs none
// of these functions: each takes the cursor apart and calls the one on slice and place.
ghost use Rattle.std.specs.Prelude.{◌≡◌};
ghost use Rattle.refusal.specs.Refusals.{outcome_of};
ghost use Rattle.syntax.specs.Cursors.{opened, held_of, read_at, raw_held_of, raw_at, close_at};

use crate::{Ask, Place, Role};
use refusal::Refusal;

// The bytes that are read, and the place in them. The log stays beside it and is no part of it, since C lends it anew with each call.
#[derive(Clone, Copy)]
pub struct Cursor<'a> {
    pub bytes: &'a [u8],
    pub place: Place,
}

// A cursor at bit 0, in no block, with nothing logged.
pub fn open(bytes: &[u8], limit: usize) -> Cursor<'_>
    ensures { result ≡ opened bytes.entry limit }
{
    Cursor {
        bytes,
        place: Place {
            pos: 0,
            limit,
            block: -1,
            count: 0,
        },
    }
}

// The bit at which a cursor stands.
pub fn position(c: Cursor<'_>) -> usize
    ensures { result ≡ c.entry.place.pos }
{
    c.place.pos
}

// Reads one element and logs it, and moves the cursor on: 6, then 1, then 19. It is inlined, and what it calls: as a call it drags the place
// through memory, padding and all, and a set of exponents takes three times as long.
#[inline(always)]
pub fn read_next(c: &mut Cursor<'_>, log: &mut [u32], ask: Ask) -> Result<u32, Refusal>
    ensures { held_of (outcome_of result) c.new log.new ≡ read_at c.old log.old ask }
{
    let read = crate::read_element(c.bytes, log, c.place, ask);
    c.place = read.place;
    read.answer
}

// Reads bits inside a span, which logs nothing, and moves the cursor on: 6, then 1.
pub fn raw_next(c: &mut Cursor<'_>, width: usize) -> Result<u32, Refusal>
    ensures { raw_held_of (outcome_of result) c.new ≡ raw_at c.old width }
{
    let read = crate::read_raw(c.bytes, c.place, width);
    c.place = read.place;
    read.answer
}

// Logs the bits from start to the cursor, which stays, as one element: 6, then 19.
pub fn close_next(
    c: &mut Cursor<'_>,
    log: &mut [u32],
    name: u32,
    role: Role,
    start: usize,
) -> Result<(), Refusal>
    ensures { held_of (outcome_of result) c.new log.new ≡ close_at c.old log.old name role start }
{
    let moved = crate::close_span(c.bytes, log, c.place, name, role, start);
    c.place = moved.place;
    moved.answer
}
