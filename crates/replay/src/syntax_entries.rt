// Entries of `syntax`: the frame is the bytes first, the log the words. The place is POS LIMIT BLOCK COUNT, a role its word.
// A call that moves the cursor adds POS COUNT to its answer.
use crate::numbers::Row;
use crate::{low, numbers, told};
use refusal::Refusal;
use syntax::{Ask, Element, Place};

// PLACE NAME ROLE INDEX WIDTH
pub fn read_element(frame: &[u8], log: &mut [u32], args: Row) -> Row {
    let read = syntax::read_element(frame, log, place(args), ask(args));
    told_at(read.answer.map(|v| v as usize), read.place)
}

// PLACE WIDTH
pub fn read_raw(frame: &[u8], args: Row) -> Row {
    let read = syntax::read_raw(frame, place(args), args[4]);
    told_at(read.answer.map(|v| v as usize), read.place)
}

// PLACE NAME ROLE WIDTH
pub fn span(frame: &[u8], log: &mut [u32], args: Row) -> Row {
    let name = low::word(args[4]);
    let role = syntax::role_of(low::word(args[5]));
    let moved = syntax::span(frame, log, place(args), name, role, args[6]);
    told_at(moved.answer.map(|()| 0), moved.place)
}

// PLACE NAME ROLE START
// Beside `span`: the call differs.
pub fn close_span(frame: &[u8], log: &mut [u32], args: Row) -> Row {
    let name = low::word(args[4]);
    let role = syntax::role_of(low::word(args[5]));
    let moved = syntax::close_span(frame, log, place(args), name, role, args[6]);
    told_at(moved.answer.map(|()| 0), moved.place)
}

// COUNT TOTAL
pub fn check_tiling(log: &[u32], args: Row) -> Row {
    told::answer(syntax::check_tiling(log, args[0], args[1]).map(|()| 0))
}

// COUNT K; adds NAME ROLE BLOCK INDEX POS WIDTH VALUE
pub fn element_at(log: &[u32], args: Row) -> Row {
    match syntax::element_at(log, args[0], args[1]) {
        Ok(e) => element_told(e),
        Err(refusal) => told::answer(Err(refusal)),
    }
}

fn place(args: Row) -> Place {
    let [pos, limit, block, count, ..] = args;
    Place {
        pos,
        limit,
        block: low::byte(block).cast_signed(),
        count,
    }
}

// A literal over the row: each number is cut to its own low bits, in `place` too.
fn ask(args: Row) -> Ask {
    Ask {
        name: low::word(args[4]),
        role: syntax::role_of(low::word(args[5])),
        index: low::half(args[6]).cast_signed(),
        width: args[7],
    }
}

// An answer, and where the cursor stands then.
fn told_at(answer: Result<usize, Refusal>, place: Place) -> Row {
    let mut row = told::answer(answer);
    row[3] = place.pos;
    row[4] = place.count;
    row
}

fn element_told(e: Element) -> Row {
    numbers::row(&[
        0,
        0,
        0,
        e.name as usize,
        syntax::role_word(e.role) as usize,
        low::of_signed(i16::from(e.block)),
        low::of_signed(e.index),
        e.pos as usize,
        e.width as usize,
        e.value as usize,
    ])
}
