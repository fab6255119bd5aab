// What C and Rust link of the core, as far as it reads by a cursor or allocates: each function is that of `capi`, with the same clauses,
// under the name and with the arguments that include/zelamodurk.h declares. C links these; numbers for kinds, flags with values beside them,
// arrays with a length and arguments that travel together are its own.
#![tactic(auto)]

pub mod block;
pub mod mantissas;
pub mod sets;
pub mod state;
pub mod tail;

ghost use Rattle.std.specs.Prelude.{◌≡◌, length};
ghost use Rattle.syntax.specs.Elements.{role_of, is_drc, is_checksum, is_span};
ghost use Rattle.syntax.specs.Reads.{standing, read_of, raw_of, span_of, close_of};
ghost use Rattle.syntax.specs.Tiling.{tiling_of, element_at};
ghost use Rattle.tables.specs.Pointers.{pointers_by};
ghost use Rattle.alloc.specs.Answers.{allocate_of};
ghost use Rattle.convention.specs.Replies.{reply, reply_of, told, told_of, running, running_of};
ghost use Rattle.capi.specs.Standings.{place_of, bare_place_of, ask_of, stood, stood_of, moved, moved_of, advanced, advanced_of, fields, fields_at, no_fields};
ghost use Rattle.capi.specs.Channels.{codes_from, leak_from, delta_from};

// capi::zela_role_is_drc.
#[unsafe(no_mangle)]
pub extern "C" fn zela_role_is_drc(role: u32, is: &mut bool) -> u8
    ensures { (result ≡ 0) × (is.new ≡ is_drc (role_of role)) }
{
    capi::zela_role_is_drc(role, is)
}

// capi::zela_role_is_checksum.
#[unsafe(no_mangle)]
pub extern "C" fn zela_role_is_checksum(role: u32, is: &mut bool) -> u8
    ensures { (result ≡ 0) × (is.new ≡ is_checksum (role_of role)) }
{
    capi::zela_role_is_checksum(role, is)
}

// capi::zela_role_is_span.
#[unsafe(no_mangle)]
pub extern "C" fn zela_role_is_span(role: u32, is: &mut bool) -> u8
    ensures { (result ≡ 0) × (is.new ≡ is_span (role_of role)) }
{
    capi::zela_role_is_span(role, is)
}

// capi::zela_read_element.
#[unsafe(no_mangle)]
pub extern "C" fn zela_read_element(
    frame: &[u8],
    log: &mut [u32],
    pos: &mut usize,
    limit: usize,
    block: i8,
    count: &mut usize,
    name: u32,
    role: u32,
    index: i16,
    width: usize,
    value: &mut u32,
    bit: &mut usize,
) -> u8
    ensures { stood result value.new bit.new pos.new count.new log.new ≡ stood_of 0 (read_of frame.now (standing (place_of pos.old limit block count.old) log.old) (ask_of name role index width)) }
{
    capi::zela_read_element(
        frame, log, pos, limit, block, count, name, role, index, width, value, bit,
    )
}

// capi::zela_read_raw.
#[unsafe(no_mangle)]
pub extern "C" fn zela_read_raw(
    frame: &[u8],
    pos: &mut usize,
    limit: usize,
    width: usize,
    value: &mut u32,
    bit: &mut usize,
) -> u8
    ensures { advanced result value.new bit.new pos.new ≡ advanced_of (raw_of frame.now (bare_place_of pos.old limit) width) }
{
    capi::zela_read_raw(frame, pos, limit, width, value, bit)
}

// capi::zela_span.
#[unsafe(no_mangle)]
pub extern "C" fn zela_span(
    frame: &[u8],
    log: &mut [u32],
    pos: &mut usize,
    limit: usize,
    block: i8,
    count: &mut usize,
    name: u32,
    role: u32,
    width: usize,
    bit: &mut usize,
) -> u8
    ensures { moved result bit.new pos.new count.new log.new ≡ moved_of (span_of (length frame.now) (standing (place_of pos.old limit block count.old) log.old) name (role_of role) width) }
{
    capi::zela_span(frame, log, pos, limit, block, count, name, role, width, bit)
}

// capi::zela_close_span.
#[unsafe(no_mangle)]
pub extern "C" fn zela_close_span(
    frame: &[u8],
    log: &mut [u32],
    pos: usize,
    limit: usize,
    block: i8,
    count: &mut usize,
    name: u32,
    role: u32,
    start: usize,
    bit: &mut usize,
) -> u8
    ensures { moved result bit.new pos count.new log.new ≡ moved_of (close_of (length frame.now) (standing (place_of pos limit block count.old) log.old) name (role_of role) start) }
{
    capi::zela_close_span(frame, log, pos, limit, block, count, name, role, start, bit)
}

// capi::zela_check_tiling.
#[unsafe(no_mangle)]
pub extern "C" fn zela_check_tiling(log: &[u32], count: usize, total: usize, bit: &mut usize) -> u8
    ensures { told result bit.new ≡ told_of (tiling_of log.now count total) }
{
    capi::zela_check_tiling(log, count, total, bit)
}

// capi::zela_element_at.
#[unsafe(no_mangle)]
pub extern "C" fn zela_element_at(
    log: &[u32],
    count: usize,
    k: usize,
    name: &mut u32,
    role: &mut u32,
    block: &mut i8,
    index: &mut i16,
    pos: &mut u32,
    width: &mut u32,
    value: &mut u32,
    bit: &mut usize,
) -> u8
    ensures { reply result (fields name.new role.new block.new index.new pos.new width.new value.new) bit.new ≡ reply_of no_fields (fields_at (element_at log.now count k)) }
{
    capi::zela_element_at(
        log, count, k, name, role, block, index, pos, width, value, bit,
    )
}

// capi::zela_allocate.
#[unsafe(no_mangle)]
pub extern "C" fn zela_allocate(
    exponents: &[u8; 256],
    start: usize,
    end: usize,
    codes: &[u8; 9],
    has_leak: bool,
    cplfleak: u8,
    cplsleak: u8,
    segments: u8,
    offset: &[u8; 8],
    length: &[u8; 8],
    ba: &[u8; 8],
    high: bool,
    hearing: &[u16],
    log_add: &[u8],
    bap: &mut [u8; 256],
    bit: &mut usize,
) -> u8
    ensures { running result bit.new bap.new ≡ running_of (allocate_of exponents.now start end (codes_from codes.now) (leak_from has_leak cplfleak cplsleak) (delta_from segments offset.now length.now ba.now) (pointers_by high) hearing.now log_add.now) }
{
    capi::zela_allocate(
        exponents, start, end, codes, has_leak, cplfleak, cplsleak, segments, offset, length, ba,
        high, hearing, log_add, bap, bit,
    )
}
