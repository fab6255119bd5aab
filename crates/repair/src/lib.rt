// CRC status and repair of a frame (TS 102 366, 6.10.1 and 4.4.5.1).
#![tactic(auto)]

ghost use Rattle.std.specs.Prelude.{◌≡◌, ℕ, suc, ◌+◌, ◌-◌, ◌*◌, ◌≤◌, ◌<◌, ◌^◌, length};
ghost use Rattle.refusal.specs.Refusals.{outcome_of, ran_of};
ghost use Rattle.crc.specs.Crc.{crc1_of, shift, idle};
ghost use Rattle.repair.specs.Basis.{Linear, Columns, Places, Filled, Reduces};
ghost use Rattle.repair.specs.Repair.{least, fit_of, five_eighths, crc_to, checked, status_of, good_of, crc_status_of, put_word, flipped, with_crc2, settled, repaired, repair_of};

use probe::Codec;
use refusal::{Refusal, Why};

// Whether the checksums are good: crc1 and crc2 of an AC-3 frame, or crc2 of an E-AC-3 frame, which has no crc1.
#[derive(Clone, Copy, Debug, PartialEq, Eq)]
pub enum Status {
    Both(bool, bool),
    Second(bool),
}

// The generator without its top term.
const POLY: u16 = 0x8005;

// A number, and the units whose images make it. A basis has one for each leading bit, 0 where there is none yet.
// A place with no number has 0 and no Option, as `Held` and `Filled` have it.
#[derive(Clone, Copy)]
struct Made {
    val: u16,
    comb: u16,
}

// What is left of a number that was cleared from its top bit down, and the bit that this stopped at.
// The bit is 0 where nothing is left, and no Option: `insert` would have to unwrap it.
#[derive(Clone, Copy)]
struct Reduced {
    left: Made,
    at: usize,
}

// The number whose one bit is bit i.
fn unit(i: usize) -> u16
    requires { i < 16 }
    ensures { result ≡ 2 ^ i }
{
    1 << i
}

// Clears v from its top bit down by what the basis holds, until nothing is left or a place is empty.
fn reduce(basis: &[Made; 16], v: Made) -> Reduced
    ensures { (result.at < 16) × ((L : ℕ → ℕ) (m : ℕ) → Linear L → Places L m basis.now → Reduces L m basis.now v result) }
{
    let mut left = v;
    for at in (0..16).rev() {
        if unit(at) <= left.val {
            let held = basis[at];
            if held.val == 0 {
                return Reduced { left, at };
            }
            left.val ^= held.val;
            left.comb ^= held.comb;
        }
    }
    Reduced { left, at: 0 }
}

// The basis with one column more: what the column reduces to fills a place that was empty.
fn insert(basis: &mut [Made; 16], column: Made)
    ensures { (L : ℕ → ℕ) (m : ℕ) → Linear L → column.comb ≡ 2 ^ m → column.val ≡ L column.comb → Filled L (suc m) basis.old → Filled L m basis.new }
{
    let new = reduce(basis, column);
    basis[new.at] = new.left;
}

// The number that the linear map with these columns takes to the target: column i is the image of 2 ^ i.
fn solve(cols: &[u16; 16], target: u16) -> u16
    ensures { (L : ℕ → ℕ) → Linear L → Columns L cols.now → L result ≡ target }
{
    let mut basis = [Made { val: 0, comb: 0 }; 16];
    for i in (0..16).rev() {
        let column = Made {
            val: cols[i],
            comb: unit(i),
        };
        insert(&mut basis, column);
    }
    let sought = Made {
        val: target,
        comb: 0,
    };
    reduce(&basis, sought).left.comb
}

// One step of the register in which a bit 0 enters.
#[tactic(auto, using(crate::proofs::Units::step_law))]
fn step(c: u16) -> u16
    ensures { result ≡ shift c 0 }
{
    (c << 1) ^ ((c >> 15) * POLY)
}

// What n zero bytes make of each unit: the next unit is one step further on.
fn columns(n: usize) -> [u16; 16]
    ensures { Columns (idle (8 * n)) result }
{
    let mut cols = [0u16; 16];
    let mut c = crc::zeros(1, n);
    for col in &mut cols {
        *col = c;
        c = step(c);
    }
    cols
}

// The number in front of the bytes that brings the register from 0 to 0.
fn crc1_of(rest: &[u8]) -> u16
    ensures { result ≡ crc1_of rest.now }
{
    let cols = columns(rest.len() + 2);
    let target = crc::crc16(0, rest);
    solve(&cols, target)
}

// The least length in bytes.
#[tactic(auto, unfolding(crate::specs::Repair::least))]
fn least_of(codec: Codec) -> usize
    ensures { result ≡ least codec }
{
    match codec {
        Codec::Ac3 => 8,
        Codec::Eac3 => 4,
    }
}

// 20 for a length that is unfit for a CRC.
fn fit(codec: Codec, n: usize) -> Result<(), Refusal>
    ensures { outcome_of result ≡ fit_of codec n }
{
    if n < least_of(codec) || 4096 < n || n % 2 == 1 {
        return Err(Why::BadLength.at(0));
    }
    Ok(())
}

// The 5/8 point of a frame of n bytes.
fn five_eighths(n: usize) -> usize
    ensures { result ≡ five_eighths n }
{
    let words = n / 2;
    2 * (words / 2 + words / 8)
}

// The CRC of bytes 2 to e.
#[tactic(auto, unfolding(crate::specs::Repair::crc_to))]
fn crc_to(frame: &[u8], e: usize) -> u16
    requires { (2 ≤ e) × (e ≤ length frame.now) }
    ensures { result ≡ crc_to e frame.now }
{
    crc::crc16(0, &frame[2..e])
}

// An AC-3 frame's status; its bytes are read once, since the run to the end goes on from the 5/8 point.
#[tactic(auto, using(crate::proofs::Checks::crc_on), unfolding(crate::specs::Repair::good_of))]
fn both_good(frame: &[u8]) -> Status
    requires { 8 ≤ length frame.now }
    ensures { checked result ≡ good_of Codec.Ac3 frame.now }
{
    let five = five_eighths(frame.len());
    let first = crc_to(frame, five);
    let second = crc::crc16(first, &frame[five..]);
    Status::Both(first == 0, second == 0)
}

// The status of a frame of a fit length.
// A match here and in `mend`: C hands the codec over as a flag, and each asks for it once.
#[tactic(auto, unfolding(crate::specs::Repair::least, crate::specs::Repair::good_of))]
fn status_of(codec: Codec, frame: &[u8]) -> Status
    requires { least codec ≤ length frame.now }
    ensures { checked result ≡ good_of codec frame.now }
{
    match codec {
        Codec::Ac3 => both_good(frame),
        Codec::Eac3 => Status::Second(crc_to(frame, frame.len()) == 0),
    }
}

// Which checksums of a frame are good, or 20 for a length that is unfit.
// The codec comes beside the frame, as C has it.
pub fn crc_status(codec: Codec, frame: &[u8]) -> Result<Status, Refusal>
    ensures { status_of result ≡ crc_status_of codec frame.now }
{
    fit(codec, frame.len())?;
    Ok(status_of(codec, frame))
}

// Bytes i and i + 1 made v, high byte first.
fn put_word(frame: &mut [u8], i: usize, v: u16)
    requires { i + 1 < length frame.old }
    ensures { frame.new ≡ put_word frame.old i v }
{
    frame[i..i + 2].copy_from_slice(&v.to_be_bytes());
}

// The low bit of the byte before crc2 turned over.
#[tactic(auto, unfolding(crate::specs::Repair::flipped))]
fn flip(frame: &mut [u8])
    requires { 3 ≤ length frame.old }
    ensures { frame.new ≡ flipped frame.old }
{
    let at = frame.len() - 3;
    frame[at] ^= 1;
}

// crc2 put in place. Where it would be the sync word, which a decoder would take for the next frame, the bit before it is turned over: that
// adds the generator to it.
#[tactic(auto, using(crate::proofs::Checks::put_flipped, crate::proofs::Checks::put_plain))]
fn put_crc2(frame: &mut [u8], crc2: u16)
    requires { (5 ≤ length frame.old) × (crc2 ≡ crc_to (length frame.old - 2) frame.old) }
    ensures { frame.new ≡ with_crc2 (settled frame.old) }
{
    let at = frame.len() - 2;
    if crc2 as u32 == probe::SYNC {
        flip(frame);
        put_word(frame, at, crc2 ^ POLY);
    } else {
        put_word(frame, at, crc2);
    }
}

// An AC-3 frame with both checksums set anew. With crc1 good the register is 0 at the 5/8 point, so the run for crc2 starts there.
fn repair_ac3(frame: &mut [u8])
    requires { 8 ≤ length frame.old }
    ensures { frame.new ≡ repaired Codec.Ac3 frame.old }
{
    let five = five_eighths(frame.len());
    let end = frame.len() - 2;
    let crc1 = crc1_of(&frame[4..five]);
    let crc2 = crc::crc16(0, &frame[five..end]);
    put_word(frame, 2, crc1);
    put_crc2(frame, crc2);
}

// An E-AC-3 frame with its checksum set anew.
#[tactic(auto, unfolding(crate::specs::Repair::repaired, crate::specs::Repair::with_crc2))]
fn repair_eac3(frame: &mut [u8])
    requires { 4 ≤ length frame.old }
    ensures { frame.new ≡ repaired Codec.Eac3 frame.old }
{
    let at = frame.len() - 2;
    let crc2 = crc_to(frame, at);
    put_word(frame, at, crc2);
}

// A frame of a fit length with its checksums set anew.
#[tactic(auto, unfolding(crate::specs::Repair::least))]
fn mend(codec: Codec, frame: &mut [u8])
    requires { least codec ≤ length frame.old }
    ensures { frame.new ≡ repaired codec frame.old }
{
    match codec {
        Codec::Ac3 => repair_ac3(frame),
        Codec::Eac3 => repair_eac3(frame),
    }
}

// Sets every checksum of a frame anew in place, or 20 for a length that is unfit, with nothing changed.
pub fn repair(codec: Codec, frame: &mut [u8]) -> Result<(), Refusal>
    ensures { ran_of result frame.new ≡ repair_of codec frame.old }
{
    fit(codec, frame.len())?;
    mend(codec, frame);
    Ok(())
}
