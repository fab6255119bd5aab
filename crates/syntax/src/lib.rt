// Syntax elements: every bit that is read gets a place in a log that the caller lends.
//
// The log has eight words an element: name, role, block, index, position, width, value, and one that is 0 until it has a use.
// A position, width, start, count or total may be any usize: a sum is formed only after a test that keeps it small.
#![tactic(auto)]

pub mod cursor;
pub mod names;

ghost use Rattle.std.specs.Prelude.{◌≡◌, [], ◌∷◌, ◌++◌, ◌+◌, ◌*◌, ◌≤◌, ◌<◌, ◌/◌, length, take, drop, ltb};
ghost use Rattle.refusal.specs.Refusals.{outcome_of};
ghost use Rattle.bits.specs.Bits.{bits_at};
ghost use Rattle.syntax.specs.Elements.{role_number, programme_of, role_word, role_of, is_drc, is_checksum, is_span, end_of, signed_word, signed_of, written, decoded};
ghost use Rattle.syntax.specs.Tiling.{tiles, tiling_of, element_at};
ghost use Rattle.syntax.specs.Reads.{room, unsound, fits, closes, element_of, standing, logged, moved_of, bare_moved_of, value_at, read_of, raw_value_at, raw_of, span_ask, span_of, close_of, next_of};

use refusal::{Refusal, Why};

// What an element means to an editor of metadata. Those that carry a number carry their programme.
#[derive(Clone, Copy)]
pub enum Role {
    Plain,
    Sync,
    // AC-3 crc1 (TS 4.3.1).
    Crc1,
    // crc2 (TS 4.3.5, E.1.2.6).
    Crc2,
    // AC-3 crcrsv or E-AC-3 encinfo, the bit before crc2.
    CrcRsv,
    // E-AC-3 strmtyp, substreamid and frmsiz; AC-3 fscod and frmsizecod.
    FrameSize,
    // dialnorm or dialnorm2.
    Dialnorm(u8),
    // compre or compr2e.
    ComprExists(u8),
    // compr or compr2.
    Compr(u8),
    // dynrnge or dynrng2e.
    DynrngExists(u8),
    // dynrng or dynrng2.
    Dynrng(u8),
    Skiple,
    Skipl,
    // skipfld bytes, one span.
    Skipfld,
    // addbsi bytes, one span.
    Addbsi,
    // Every mantissa of one audio block, one span.
    Mantissas,
    // auxbits, one span.
    AuxBits,
    AuxDataL,
    AuxDataE,
    BlkStrtInfoE,
    BlkStrtInfo,
}

// An element as a value. Block and index are -1 where there is none; the value is 0 for spans.
// Position and width are log words: what this crate logs ends at bit 32,768 at most.
// No Options and no enum of elements: the document has -1 and 0 there, so have `decoded` and C, and the log holds them as words.
#[derive(Clone, Copy)]
pub struct Element {
    pub name: u32,
    pub role: Role,
    pub block: i8,
    pub index: i16,
    pub pos: u32,
    pub width: u32,
    pub value: u32,
}

// The cursor's numbers: its bit, its limit, the block it is in, and how many elements are logged.
// The block is -1 outside of any, as C hands it over. Count and limit stand beside what is lent, as in C: the log is words, and nothing is on a heap.
#[derive(Clone, Copy)]
pub struct Place {
    pub pos: usize,
    pub limit: usize,
    pub block: i8,
    pub count: usize,
}

// An element that is asked for.
// The index is -1 where there is none, as C hands it over and `span_ask` has it.
#[derive(Clone, Copy)]
pub struct Ask {
    pub name: u32,
    pub role: Role,
    pub index: i16,
    pub width: usize,
}

// What a call answers, and the place after it, taken or refused.
#[derive(Clone, Copy)]
pub struct Moved<T> {
    pub answer: Result<T, Refusal>,
    pub place: Place,
}

// A reader that stays as it is once it is refused. Its answer is the value of the last read.
pub type Reader = Moved<u32>;

// A role's number: its place among the roles.
// A match: an enum with programmes in some cases has no `as`.
fn role_number(role: Role) -> u8
    ensures { result ≡ role_number role }
{
    match role {
        Role::Plain => 0,
        Role::Sync => 1,
        Role::Crc1 => 2,
        Role::Crc2 => 3,
        Role::CrcRsv => 4,
        Role::FrameSize => 5,
        Role::Dialnorm(_) => 6,
        Role::ComprExists(_) => 7,
        Role::Compr(_) => 8,
        Role::DynrngExists(_) => 9,
        Role::Dynrng(_) => 10,
        Role::Skiple => 11,
        Role::Skipl => 12,
        Role::Skipfld => 13,
        Role::Addbsi => 14,
        Role::Mantissas => 15,
        Role::AuxBits => 16,
        Role::AuxDataL => 17,
        Role::AuxDataE => 18,
        Role::BlkStrtInfoE => 19,
        Role::BlkStrtInfo => 20,
    }
}

// The programme that a role carries, 0 where it carries none.
// 0 and no Option: a role's word adds it (`programme_of`).
fn programme(role: Role) -> u8
    ensures { result ≡ programme_of role }
{
    match role {
        Role::Dialnorm(p)
        | Role::ComprExists(p)
        | Role::Compr(p)
        | Role::DynrngExists(p)
        | Role::Dynrng(p) => p,
        _ => 0,
    }
}

// A role's word: its number, and 32 times its programme.
// A function here and in `role_of`, and no From: docs/PROMISES.md names both, with their edits and theorems.
pub fn role_word(role: Role) -> u32
    ensures { result ≡ role_word role }
{
    role_number(role) as u32 + 32 * (programme(role) as u32)
}

// The role of a word; a number that no role has is Plain.
pub fn role_of(w: u32) -> Role
    ensures { result ≡ role_of w }
{
    let number = w % 32;
    let programme = (w / 32 % 256) as u8;
    match number {
        1 => Role::Sync,
        2 => Role::Crc1,
        3 => Role::Crc2,
        4 => Role::CrcRsv,
        5 => Role::FrameSize,
        6 => Role::Dialnorm(programme),
        7 => Role::ComprExists(programme),
        8 => Role::Compr(programme),
        9 => Role::DynrngExists(programme),
        10 => Role::Dynrng(programme),
        11 => Role::Skiple,
        12 => Role::Skipl,
        13 => Role::Skipfld,
        14 => Role::Addbsi,
        15 => Role::Mantissas,
        16 => Role::AuxBits,
        17 => Role::AuxDataL,
        18 => Role::AuxDataE,
        19 => Role::BlkStrtInfoE,
        20 => Role::BlkStrtInfo,
        _ => Role::Plain,
    }
}

// Elements that hold a gain word or its presence flag.
#[tactic(auto, unfolding(crate::specs::Elements::among))]
pub fn is_drc(role: Role) -> bool
    ensures { result ≡ is_drc role }
{
    matches!(
        role,
        Role::ComprExists(_) | Role::Compr(_) | Role::DynrngExists(_) | Role::Dynrng(_)
    )
}

// Elements whose value is a checksum over the frame, which any edit changes.
#[tactic(auto, unfolding(crate::specs::Elements::among))]
pub fn is_checksum(role: Role) -> bool
    ensures { result ≡ is_checksum role }
{
    matches!(role, Role::Crc1 | Role::Crc2)
}

// Spans, whose content is compared bit by bit and not by value.
#[tactic(auto, unfolding(crate::specs::Elements::among))]
pub fn is_span(role: Role) -> bool
    ensures { result ≡ is_span role }
{
    matches!(
        role,
        Role::Skipfld | Role::Addbsi | Role::Mantissas | Role::AuxBits
    )
}

// The bit after an element. Two words never pass a usize.
pub fn end(e: Element) -> usize
    ensures { result ≡ end_of e }
{
    e.pos as usize + e.width as usize
}

// The word of a block or an index: two's complement in 16 bits.
fn signed_word(x: i16) -> u32
    ensures { result ≡ signed_word x }
{
    x.cast_unsigned() as u32
}

// The index of a word. It and `block_of` are a line for each type, over another part of the word.
fn index_of(w: u32) -> i16
    ensures { result ≡ signed_of 32768 w }
{
    ((w % 65536) as u16).cast_signed()
}

// The block of a word.
fn block_of(w: u32) -> i8
    ensures { result ≡ signed_of 128 w }
{
    ((w % 256) as u8).cast_signed()
}

// An element's words at place k of the log.
// C lends the log as words, so an element's place in it is a clause of the functions that touch it.
fn put_element(log: &mut [u32], k: usize, e: Element)
    requires { (k < 4096) × (8 * k + 8 ≤ length log.old) }
    ensures { log.new ≡ written log.old k e }
{
    let role = role_word(e.role);
    let block = signed_word(e.block as i16);
    let index = signed_word(e.index);
    // By value it is eight stores; copy_from_slice would build the array on the stack and copy it from there.
    let (_, rest) = log.split_at_mut(8 * k);
    if let Some(words) = rest.first_chunk_mut::<8>() {
        *words = [e.name, role, block, index, e.pos, e.width, e.value, 0];
    }
}

// The element of the eight words at place k of the log.
// By index: a From over eight words would index the same words.
fn stored(log: &[u32], k: usize) -> Element
    requires { (k < 4096) × (8 * k + 8 ≤ length log.now) }
    ensures { result ≡ decoded log.now k }
{
    let at = 8 * k;
    Element {
        name: log[at],
        role: role_of(log[at + 1]),
        block: block_of(log[at + 2]),
        index: index_of(log[at + 3]),
        pos: log[at + 4],
        width: log[at + 5],
        value: log[at + 6],
    }
}

// How many elements a log of so many words takes.
pub fn room_of(words: usize) -> usize
    ensures { result ≡ room words }
{
    (words / 8).min(4096)
}

// Whether a cursor's limit is above 32,768 bits, or past len bytes of data. Bytes are compared, since 8 * len may pass a usize.
pub fn is_unsound(len: usize, place: Place) -> bool
    ensures { result ≡ unsound len place }
{
    32768 < place.limit || len < (place.limit + 7) / 8
}

// Whether width bits from the cursor on pass its limit. The sum may pass a usize, so the difference is compared.
pub fn passes(place: Place, width: usize) -> bool
    ensures { result ≡ ltb place.limit (place.pos + width) }
{
    place.limit < place.pos || place.limit - place.pos < width
}

// Whether an element of width bits can be logged at the cursor: 6, then 1, then 19.
// Lengths and no slices, here and in `closable`: the definitions know of both the length alone.
#[tactic(auto, unfolding(crate::specs::Reads::fits))]
fn fit(len: usize, words: usize, place: Place, width: usize) -> Result<(), Refusal>
    ensures { outcome_of result ≡ fits len words place width }
{
    let most = room_of(words);
    let Place { pos, count, .. } = place;
    if is_unsound(len, place) || most < count {
        return Err(Why::BadArgument.at(pos));
    }
    if passes(place, width) {
        return Err(Why::PastLimit.at(pos));
    }
    if count == most {
        return Err(Why::LogFull.at(pos));
    }
    Ok(())
}

// Whether a span from start to the cursor can be logged: 6, then 19.
// Beside `fit`: four tests of 6, and none of 1.
#[tactic(auto, unfolding(crate::specs::Reads::closes))]
fn closable(len: usize, words: usize, place: Place, start: usize) -> Result<(), Refusal>
    ensures { outcome_of result ≡ closes len words place start }
{
    let most = room_of(words);
    let Place {
        pos,
        limit,
        count,
        ..
    } = place;
    if is_unsound(len, place) || most < count || pos < start || limit < pos {
        return Err(Why::BadArgument.at(pos));
    }
    if count == most {
        return Err(Why::LogFull.at(pos));
    }
    Ok(())
}

// The bits of a range that lies inside the frame, which is never refused.
fn fetched(frame: &[u8], pos: usize, width: usize) -> u32
    requires { (width ≤ 32) × (pos + width ≤ 8 * length frame.now) }
    ensures { result ≡ bits_at frame.now pos width }
{
    bits::get(frame, pos, width).unwrap()
}

// Logs the element that is asked for from start on, and puts the cursor to its end.
fn log_element(log: &mut [u32], place: Place, ask: Ask, start: usize, value: u32) -> Place
    requires { (start + ask.width ≤ 32768) × ((place.count < 4096) × (8 * place.count + 8 ≤ length log.old)) }
    ensures { standing result log.new ≡ logged (standing place log.old) (element_of place start ask value) (start + ask.width) }
{
    let e = Element {
        name: ask.name,
        role: ask.role,
        block: place.block,
        index: ask.index,
        pos: start as u32,
        width: ask.width as u32,
        value,
    };
    put_element(log, place.count, e);
    Place {
        pos: start + ask.width,
        count: place.count + 1,
        ..place
    }
}

// The value of an element of width bits at the cursor, where it can be logged: 6, then 1, then 19.
#[tactic(auto, using(crate::proofs::Tests::fits_free))]
fn value_at(frame: &[u8], words: usize, place: Place, width: usize) -> Result<u32, Refusal>
    ensures { outcome_of result ≡ value_at frame.now words place width }
{
    if 32 < width {
        return Err(Why::BadArgument.at(place.pos));
    }
    fit(frame.len(), words, place, width)?;
    Ok(fetched(frame, place.pos, width))
}

// Reads one element and logs it: 6, then 1, then 19. A refused read changes neither place nor log. It is inlined, as `cursor::read_next` is.
// Its last match, which `read_raw`, `span` and `close_span` have too, moves the place by a step of its own: one function of the four would
// take that step as a closure, with a contract longer than the match.
#[inline(always)]
pub fn read_element(frame: &[u8], log: &mut [u32], place: Place, ask: Ask) -> Moved<u32>
    ensures { moved_of result log.new ≡ read_of frame.now (standing place log.old) ask }
{
    let answer = value_at(frame, log.len(), place, ask.width);
    match answer {
        Ok(value) => Moved {
            answer,
            place: log_element(log, place, ask, place.pos, value),
        },
        Err(_) => Moved { answer, place },
    }
}

// The value of n bits inside a span: 6, then 1.
fn raw_value_at(frame: &[u8], place: Place, n: usize) -> Result<u32, Refusal>
    ensures { outcome_of result ≡ raw_value_at frame.now place n }
{
    if is_unsound(frame.len(), place) || 32 < n {
        return Err(Why::BadArgument.at(place.pos));
    }
    if passes(place, n) {
        return Err(Why::PastLimit.at(place.pos));
    }
    Ok(fetched(frame, place.pos, n))
}

// Reads bits inside a span, which logs nothing: 6, then 1.
#[tactic(auto, unfolding(crate::specs::Reads::raw_of))]
pub fn read_raw(frame: &[u8], place: Place, width: usize) -> Moved<u32>
    ensures { bare_moved_of result ≡ raw_of frame.now place width }
{
    let answer = raw_value_at(frame, place, width);
    match answer {
        Ok(_) => Moved {
            answer,
            place: Place {
                pos: place.pos + width,
                ..place
            },
        },
        Err(_) => Moved { answer, place },
    }
}

// A span as an element that is asked for: it has no index.
fn span_ask(name: u32, role: Role, width: usize) -> Ask
    ensures { result ≡ span_ask name role width }
{
    Ask {
        name,
        role,
        index: -1,
        width,
    }
}

// Logs the next width bits, any number of them, as one element: 6, then 1, then 19.
#[tactic(auto, using(crate::proofs::Tests::fits_free, crate::proofs::Tests::room_words), unfolding(crate::specs::Reads::span_of))]
pub fn span(
    frame: &[u8],
    log: &mut [u32],
    place: Place,
    name: u32,
    role: Role,
    width: usize,
) -> Moved<()>
    ensures { moved_of result log.new ≡ span_of (length frame.now) (standing place log.old) name role width }
{
    let answer = fit(frame.len(), log.len(), place, width);
    match answer {
        Ok(()) => Moved {
            answer,
            place: log_element(log, place, span_ask(name, role, width), place.pos, 0),
        },
        Err(_) => Moved { answer, place },
    }
}

// Logs the bits from start to the cursor, which stays, as one element: 6, then 19.
// Beside `span`: another test and another start; the rest is one call of `log_element`.
#[tactic(auto, using(crate::proofs::Tests::closes_free, crate::proofs::Tests::room_words), unfolding(crate::specs::Reads::close_of))]
pub fn close_span(
    frame: &[u8],
    log: &mut [u32],
    place: Place,
    name: u32,
    role: Role,
    start: usize,
) -> Moved<()>
    ensures { moved_of result log.new ≡ close_of (length frame.now) (standing place log.old) name role start }
{
    let answer = closable(frame.len(), log.len(), place, start);
    match answer {
        Ok(()) => Moved {
            answer,
            place: log_element(
                log,
                place,
                span_ask(name, role, place.pos - start),
                start,
                0,
            ),
        },
        Err(_) => Moved { answer, place },
    }
}

// A reader that has read nothing.
pub fn begin(place: Place) -> Reader
    ensures { result ≡ record { answer = Ok 0; place = place } }
{
    Moved {
        answer: Ok(0),
        place,
    }
}

// The next element. A reader that is refused stays where it is, and reads nothing.
#[tactic(auto, unfolding(crate::specs::Reads::next_of))]
pub fn next(frame: &[u8], log: &mut [u32], reader: Reader, ask: Ask) -> Reader
    ensures { moved_of result log.new ≡ next_of frame.now ask (moved_of reader log.old) }
{
    match reader.answer {
        Ok(_) => read_element(frame, log, reader.place, ask),
        Err(_) => reader,
    }
}

// Whether the first count elements of the log tile the bits below total. No bit of `off` is set as long as each element starts
// where the one before it ends; a loop without an exit on the way is the quicker one.
// The log and its count come apart, as C hands them over.
fn is_tiled(log: &[u32], count: usize, total: usize) -> bool
    requires { (count ≤ 4096) × (8 * count ≤ length log.now) }
    ensures { result ≡ tiles log.now count total }
{
    let mut off: usize = 0;
    let mut at: usize = 0;
    for k in 0..count {
        let pos = log[8 * k + 4] as usize;
        off |= pos ^ at;
        at = pos + log[8 * k + 5] as usize;
    }
    off == 0 && at == total
}

// Whether the elements of a log tile the bits below total: 6 for a count past its room, then 18.
#[tactic(auto, unfolding(crate::specs::Tiling::tiling_of))]
pub fn check_tiling(log: &[u32], count: usize, total: usize) -> Result<(), Refusal>
    ensures { outcome_of result ≡ tiling_of log.now count total }
{
    if room_of(log.len()) < count {
        return Err(Why::BadArgument.at(0));
    }
    if !is_tiled(log, count, total) {
        return Err(Why::NotTiled.at(0));
    }
    Ok(())
}

// Element k of a log of count elements: 6 for a count past its room, or for a place past the count.
#[tactic(auto, unfolding(crate::specs::Tiling::element_at))]
pub fn element_at(log: &[u32], count: usize, k: usize) -> Result<Element, Refusal>
    ensures { outcome_of result ≡ element_at log.now count k }
{
    if room_of(log.len()) < count || count <= k {
        return Err(Why::BadArgument.at(0));
    }
    Ok(stored(log, k))
}
