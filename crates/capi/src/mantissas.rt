// The mantissa walks of `walks` and `aht`. A walk looks at no block and no count, and logs nothing.
ghost use Rattle.std.specs.Prelude.{◌≡◌};
ghost use Rattle.walks.specs.Walk.{walk_of};
ghost use Rattle.aht.specs.Aht.{aht_of};
ghost use Rattle.capi.specs.Standings.{bare_place_of, advanced, advanced_of};
ghost use Rattle.capi.specs.Walks.{groups_of, carried, carried_of};

use crate::place_of;
use convention::{done, reply};
use tables::Bin;
use walks::Groups;

// The groups from a caller's numbers.
fn groups_of(g1: u8, g2: u8, g4: u8) -> Groups
    ensures { result ≡ groups_of g1 g2 g4 }
{
    Groups { g1, g2, g4 }
}

// walks::conventional.
pub fn zela_conventional(
    frame: &[u8],
    pos: &mut usize,
    limit: usize,
    bap: &[u8; 256],
    start: usize,
    end: usize,
    g1: &mut u8,
    g2: &mut u8,
    g4: &mut u8,
    bit: &mut usize,
) -> u8
    ensures { carried result bit.new pos.new (groups_of g1.new g2.new g4.new) ≡ carried_of (walk_of frame.now (bare_place_of pos.old limit) bap.now start end (groups_of g1.old g2.old g4.old)) }
{
    let place = place_of(*pos, limit, 0, 0);
    let groups = groups_of(*g1, *g2, *g4);
    let walked = walks::conventional(frame, place, bap, Bin(start), Bin(end), groups);
    *pos = walked.place.pos;
    *g1 = walked.groups.g1;
    *g2 = walked.groups.g2;
    *g4 = walked.groups.g4;
    done(walked.answer, bit)
}

// aht::aht.
pub fn zela_aht(
    frame: &[u8],
    pos: &mut usize,
    limit: usize,
    hebap: &[u8; 256],
    start: usize,
    end: usize,
    tags: &mut usize,
    bit: &mut usize,
) -> u8
    ensures { advanced result tags.new bit.new pos.new ≡ advanced_of (aht_of frame.now (bare_place_of pos.old limit) hebap.now start end) }
{
    let place = place_of(*pos, limit, 0, 0);
    let walked = aht::aht(frame, place, hebap, Bin(start), Bin(end));
    *pos = walked.place.pos;
    reply(walked.answer, 0, tags, bit)
}
