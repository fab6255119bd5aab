// The mantissa walks.
ghost use Rattle.std.specs.Prelude.{◌≡◌};
ghost use Rattle.walks.specs.Walk.{walk_of};
ghost use Rattle.aht.specs.Aht.{aht_of};
ghost use Rattle.capi.specs.Standings.{bare_place_of, advanced, advanced_of};
ghost use Rattle.capi.specs.Walks.{groups_of, carried, carried_of};

// capi::mantissas::zela_conventional.
#[unsafe(no_mangle)]
pub extern "C" fn zela_conventional(
    frame: &[u8],
    pos: &mut usize,
    limit: usize,
    bap: &[u8; 256],
    start: usize,
    end: usize,
    g1: &mut u8,
    g2: &mut u8,
    g4: &mut u8,
    bit: &mut usize,
) -> u8
    ensures { carried result bit.new pos.new (groups_of g1.new g2.new g4.new) ≡ carried_of (walk_of frame.now (bare_place_of pos.old limit) bap.now start end (groups_of g1.old g2.old g4.old)) }
{
    capi::mantissas::zela_conventional(frame, pos, limit, bap, start, end, g1, g2, g4, bit)
}

// capi::mantissas::zela_aht.
#[unsafe(no_mangle)]
pub extern "C" fn zela_aht(
    frame: &[u8],
    pos: &mut usize,
    limit: usize,
    hebap: &[u8; 256],
    start: usize,
    end: usize,
    tags: &mut usize,
    bit: &mut usize,
) -> u8
    ensures { advanced result tags.new bit.new pos.new ≡ advanced_of (aht_of frame.now (bare_place_of pos.old limit) hebap.now start end) }
{
    capi::mantissas::zela_aht(frame, pos, limit, hebap, start, end, tags, bit)
}
