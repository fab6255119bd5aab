// The core for C and Rust, as far as it reads by a cursor or allocates: thin functions over the crates' public ones. `convention`
// has what a caller is told; a function that never refuses has no room for a bit. include/zelamodurk.h says the same for each
// function in C's terms.
// Numbers for kinds and roles, flags with values beside them, arrays with a length and arguments that travel together are C's:
// include/zelamodurk.h declares them so.
#![tactic(auto)]

pub mod block;
pub mod mantissas;
pub mod sets;
pub mod state;
pub mod tail;

ghost use Rattle.std.specs.Prelude.{◌≡◌, length};
ghost use Rattle.syntax.specs.Elements.{role_of, is_drc, is_checksum, is_span};
ghost use Rattle.syntax.specs.Reads.{standing, read_of, raw_of, span_of, close_of};
ghost use Rattle.syntax.specs.Tiling.{tiling_of, element_at};
ghost use Rattle.tables.specs.Pointers.{pointers_by};
ghost use Rattle.alloc.specs.Answers.{allocate_of};
ghost use Rattle.convention.specs.Replies.{reply, reply_of, told, told_of, running, running_of};
ghost use Rattle.capi.specs.Standings.{place_of, bare_place_of, ask_of, stood, stood_of, moved, moved_of, advanced, advanced_of, fields, fields_at, no_fields};
ghost use Rattle.capi.specs.Channels.{codes_from, leak_from, delta_from};

use alloc::{Codes, Leak};
use convention::{done, got};
use syntax::{Ask, Element, Place, Role};
use tables::{Bin, Delta};

// syntax::is_drc, of the role of a word.
pub fn zela_role_is_drc(role: u32, is: &mut bool) -> u8
    ensures { (result ≡ 0) × (is.new ≡ is_drc (role_of role)) }
{
    *is = syntax::is_drc(syntax::role_of(role));
    0
}

// syntax::is_checksum, of the role of a word.
pub fn zela_role_is_checksum(role: u32, is: &mut bool) -> u8
    ensures { (result ≡ 0) × (is.new ≡ is_checksum (role_of role)) }
{
    *is = syntax::is_checksum(syntax::role_of(role));
    0
}

// syntax::is_span, of the role of a word.
pub fn zela_role_is_span(role: u32, is: &mut bool) -> u8
    ensures { (result ≡ 0) × (is.new ≡ is_span (role_of role)) }
{
    *is = syntax::is_span(syntax::role_of(role));
    0
}

// A cursor from a caller's numbers: a literal, as in `ask_of`, since C hands over nothing else.
fn place_of(pos: usize, limit: usize, block: i8, count: usize) -> Place
    ensures { result ≡ place_of pos limit block count }
{
    Place {
        pos,
        limit,
        block,
        count,
    }
}

// An element that is asked for, from a caller's numbers.
fn ask_of(name: u32, role: u32, index: i16, width: usize) -> Ask
    ensures { result ≡ ask_of name role index width }
{
    Ask {
        name,
        role: syntax::role_of(role),
        index,
        width,
    }
}

// syntax::read_element.
pub fn zela_read_element(
    frame: &[u8],
    log: &mut [u32],
    pos: &mut usize,
    limit: usize,
    block: i8,
    count: &mut usize,
    name: u32,
    role: u32,
    index: i16,
    width: usize,
    value: &mut u32,
    bit: &mut usize,
) -> u8
    ensures { stood result value.new bit.new pos.new count.new log.new ≡ stood_of 0 (read_of frame.now (standing (place_of pos.old limit block count.old) log.old) (ask_of name role index width)) }
{
    let place = place_of(*pos, limit, block, *count);
    let ask = ask_of(name, role, index, width);
    let read = syntax::read_element(frame, log, place, ask);
    *pos = read.place.pos;
    *count = read.place.count;
    got(read.answer, value, bit)
}

// syntax::read_raw. It looks at no block and no count.
pub fn zela_read_raw(
    frame: &[u8],
    pos: &mut usize,
    limit: usize,
    width: usize,
    value: &mut u32,
    bit: &mut usize,
) -> u8
    ensures { advanced result value.new bit.new pos.new ≡ advanced_of (raw_of frame.now (bare_place_of pos.old limit) width) }
{
    let place = place_of(*pos, limit, 0, 0);
    let read = syntax::read_raw(frame, place, width);
    *pos = read.place.pos;
    got(read.answer, value, bit)
}

// syntax::span.
pub fn zela_span(
    frame: &[u8],
    log: &mut [u32],
    pos: &mut usize,
    limit: usize,
    block: i8,
    count: &mut usize,
    name: u32,
    role: u32,
    width: usize,
    bit: &mut usize,
) -> u8
    ensures { moved result bit.new pos.new count.new log.new ≡ moved_of (span_of (length frame.now) (standing (place_of pos.old limit block count.old) log.old) name (role_of role) width) }
{
    let place = place_of(*pos, limit, block, *count);
    let spanned = syntax::span(frame, log, place, name, syntax::role_of(role), width);
    *pos = spanned.place.pos;
    *count = spanned.place.count;
    done(spanned.answer, bit)
}

// syntax::close_span.
pub fn zela_close_span(
    frame: &[u8],
    log: &mut [u32],
    pos: usize,
    limit: usize,
    block: i8,
    count: &mut usize,
    name: u32,
    role: u32,
    start: usize,
    bit: &mut usize,
) -> u8
    ensures { moved result bit.new pos count.new log.new ≡ moved_of (close_of (length frame.now) (standing (place_of pos limit block count.old) log.old) name (role_of role) start) }
{
    let place = place_of(pos, limit, block, *count);
    let closed = syntax::close_span(frame, log, place, name, syntax::role_of(role), start);
    *count = closed.place.count;
    done(closed.answer, bit)
}

// syntax::check_tiling.
pub fn zela_check_tiling(log: &[u32], count: usize, total: usize, bit: &mut usize) -> u8
    ensures { told result bit.new ≡ told_of (tiling_of log.now count total) }
{
    done(syntax::check_tiling(log, count, total), bit)
}

// The element of which each field is 0, where there is none.
const NO_ELEMENT: Element = Element {
    name: 0,
    role: Role::Plain,
    block: 0,
    index: 0,
    pos: 0,
    width: 0,
    value: 0,
};

// syntax::element_at, field by field.
pub fn zela_element_at(
    log: &[u32],
    count: usize,
    k: usize,
    name: &mut u32,
    role: &mut u32,
    block: &mut i8,
    index: &mut i16,
    pos: &mut u32,
    width: &mut u32,
    value: &mut u32,
    bit: &mut usize,
) -> u8
    ensures { reply result (fields name.new role.new block.new index.new pos.new width.new value.new) bit.new ≡ reply_of no_fields (fields_at (element_at log.now count k)) }
{
    let found = syntax::element_at(log, count, k);
    let e = found.unwrap_or(NO_ELEMENT);
    *name = e.name;
    *role = syntax::role_word(e.role);
    *block = e.block;
    *index = e.index;
    *pos = e.pos;
    *width = e.width;
    *value = e.value;
    done(found.and(Ok(())), bit)
}

// The side information from a caller's nine bytes.
// By place, as C lends nine bytes; `replay` has its own from a row of numbers.
fn codes_from(codes: &[u8; 9]) -> Codes
    ensures { result ≡ codes_from codes.now }
{
    Codes {
        sdcycod: codes[0],
        fdcycod: codes[1],
        sgaincod: codes[2],
        dbpbcod: codes[3],
        floorcod: codes[4],
        fgaincod: codes[5],
        csnroffst: codes[6],
        fsnroffst: codes[7],
        fscod: codes[8],
    }
}

// The leaks, where the caller has any: C hands over a flag and two codes beside it.
fn leak_from(has_leak: bool, cplfleak: u8, cplsleak: u8) -> Option<Leak>
    ensures { result ≡ leak_from has_leak cplfleak cplsleak }
{
    has_leak.then_some(Leak { cplfleak, cplsleak })
}

// The delta segments from a caller's arrays.
fn delta_from(segments: u8, offset: &[u8; 8], length: &[u8; 8], ba: &[u8; 8]) -> Delta
    ensures { result ≡ delta_from segments offset.now length.now ba.now }
{
    Delta {
        count: segments,
        offset: *offset,
        len: *length,
        ba: *ba,
    }
}

// alloc::allocate.
pub fn zela_allocate(
    exponents: &[u8; 256],
    start: usize,
    end: usize,
    codes: &[u8; 9],
    has_leak: bool,
    cplfleak: u8,
    cplsleak: u8,
    segments: u8,
    offset: &[u8; 8],
    length: &[u8; 8],
    ba: &[u8; 8],
    high: bool,
    hearing: &[u16],
    log_add: &[u8],
    bap: &mut [u8; 256],
    bit: &mut usize,
) -> u8
    ensures { running result bit.new bap.new ≡ running_of (allocate_of exponents.now start end (codes_from codes.now) (leak_from has_leak cplfleak cplsleak) (delta_from segments offset.now length.now ba.now) (pointers_by high) hearing.now log_add.now) }
{
    let side = codes_from(codes);
    let leak = leak_from(has_leak, cplfleak, cplsleak);
    let delta = delta_from(segments, offset, length, ba);
    let answer = alloc::allocate(
        exponents,
        Bin(start),
        Bin(end),
        side,
        leak,
        delta,
        tables::pointers_by(high),
        hearing,
        log_add,
        bap,
    );
    done(answer, bit)
}
