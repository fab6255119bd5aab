// The block allocation.
ghost use Rattle.std.specs.Prelude.{◌≡◌};
ghost use Rattle.blocks.specs.Block.{asked, allocate_block_of};
ghost use Rattle.capi.specs.States.{state_from};
ghost use Rattle.capi.specs.Blocks.{pointed, pointed_of};

// capi::block::zela_allocate_block.
#[unsafe(no_mangle)]
pub extern "C" fn zela_allocate_block(
    state: &[[u8; 25]; 8],
    fscod: u8,
    present: &[bool; 7],
    high: &[bool; 7],
    exponents: &[[u8; 256]; 7],
    ranges: &[[usize; 4]; 7],
    hearing: &[u16],
    log_add: &[u8],
    bap: &mut [[u8; 256]; 7],
    bit: &mut usize,
) -> u8
    ensures { pointed result bit.new bap.new ≡ pointed_of (allocate_block_of (state_from state.now) fscod (asked present.now high.now exponents.now ranges.now) hearing.now log_add.now) }
{
    capi::block::zela_allocate_block(
        state, fscod, present, high, exponents, ranges, hearing, log_add, bap, bit,
    )
}
