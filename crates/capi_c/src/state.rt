// The segments in a caller's allocation state.
ghost use Rattle.std.specs.Prelude.{◌≡◌};
ghost use Rattle.syntax.specs.Reads.{standing};
ghost use Rattle.blocks.specs.Side.{delta_code_of, read_delta_of};
ghost use Rattle.capi.specs.Standings.{place_of};
ghost use Rattle.capi.specs.States.{state_from, kept, kept_of, gathered, gathered_of};

// capi::state::zela_delta_code.
#[unsafe(no_mangle)]
pub extern "C" fn zela_delta_code(
    state: &mut [[u8; 25]; 8],
    slot: usize,
    code: u32,
    block0: bool,
    bit: &mut usize,
) -> u8
    ensures { kept result bit.new state.new ≡ kept_of state.old (delta_code_of (state_from state.old) slot code block0) }
{
    capi::state::zela_delta_code(state, slot, code, block0, bit)
}

// capi::state::zela_read_delta.
#[unsafe(no_mangle)]
pub extern "C" fn zela_read_delta(
    frame: &[u8],
    log: &mut [u32],
    pos: &mut usize,
    limit: usize,
    block: i8,
    count: &mut usize,
    state: &mut [[u8; 25]; 8],
    slot: usize,
    bit: &mut usize,
) -> u8
    ensures { gathered result bit.new pos.new count.new log.new state.new ≡ gathered_of state.old (read_delta_of frame.now (standing (place_of pos.old limit block count.old) log.old) (state_from state.old) slot) }
{
    capi::state::zela_read_delta(frame, log, pos, limit, block, count, state, slot, bit)
}
