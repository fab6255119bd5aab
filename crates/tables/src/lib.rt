// The tables of bit allocation, ETSI TS 102 366 V1.4.1 ("TS") 6.2.2, and the tests of what a caller hands in: what the side
// information's codes mean, which bins a band has, the pointers by address, and whether lent tables and delta segments are fit.
#![tactic(auto)]

ghost use Rattle.std.specs.Prelude.{◌≡◌, ◌≤◌, ◌+◌, ◌-◌, ◌*◌, ltb, eqb, pos, length, fold, true, ◌&&◌};
ghost use Rattle.std.specs.Ordering.{partial_le};
ghost use Rattle.refusal.specs.Refusals.{refuse_if, taken};
ghost use Rattle.tables.specs.Bands.{band_start, band_of};
ghost use Rattle.tables.specs.Codes.{code_at, slow_decay, fast_decay, slow_gain, knee_table, floor_table, fast_gain, leak_of, snr_offset, fine_of, snr_of, coded_of};
ghost use Rattle.tables.specs.Pointers.{pointers_by, table_of};
ghost use Rattle.tables.specs.Fits.{upto, lent_fits, tables_fit, delta_fits};

// The number of a bin. A bin becomes a band, and a band a bin, only by the rule of the bands' first bins.
#[derive(Clone, Copy)]
pub struct Bin(pub usize);

// The number of a band.
#[derive(Clone, Copy)]
pub struct Band(pub usize);

// The slots: 0 to 4 are the full bandwidth channels, then come coupling, and LFE, the last.
pub const SLOTS: usize = 7;

pub const CPL: usize = 5;

pub const LFE: usize = 6;

// The delta segments, deltoffst, deltlen and deltba: the first `count` of each array. C's rows of state have the three one after another,
// and the theorems of `blocks` and `capi` are over the three lists; a list of segments would be read and written by hand there.
#[derive(Clone, Copy)]
pub struct Delta {
    pub count: u8,
    pub offset: [u8; 8],
    pub len: [u8; 8],
    pub ba: [u8; 8],
}

// Which table of pointers: TS 6.2.2.7, or TS E.2.4.3.1.
#[derive(Clone, Copy)]
pub enum Pointers {
    Bap,
    Hebap,
}

// The code's value in its table, or nothing where the code is past the table.
fn coded<const N: usize>(table: &[i32; N], code: u8) -> Option<i32>
    ensures { coded_of result ≡ code_at table.now code }
{
    table.get(code as usize).copied()
}

static SLOW_DECAY: [i32; 4] = [15, 17, 19, 21];

static FAST_DECAY: [i32; 4] = [63, 83, 103, 123];

static SLOW_GAIN: [i32; 4] = [0x540, 0x4D8, 0x478, 0x410];

static KNEE: [i32; 4] = [0, 0x700, 0x900, 0xB00];

// The last is the word 0xF800, signed.
static FLOOR: [i32; 8] = [0x2F0, 0x2B0, 0x270, 0x230, 0x1F0, 0x170, 0x0F0, -2048];

// 6.2.2.1: the slow decay, by sdcycod.
pub fn slow_decay(code: u8) -> Option<i32>
    ensures { coded_of result ≡ code_at slow_decay code }
{
    coded(&SLOW_DECAY, code)
}

// The fast decay, by fdcycod.
pub fn fast_decay(code: u8) -> Option<i32>
    ensures { coded_of result ≡ code_at fast_decay code }
{
    coded(&FAST_DECAY, code)
}

// The slow gain, by sgaincod.
pub fn slow_gain(code: u8) -> Option<i32>
    ensures { coded_of result ≡ code_at slow_gain code }
{
    coded(&SLOW_GAIN, code)
}

// The knee, by dbpbcod.
pub fn knee_of(code: u8) -> Option<i32>
    ensures { coded_of result ≡ code_at knee_table code }
{
    coded(&KNEE, code)
}

// The floor, by floorcod.
pub fn floor_of(code: u8) -> Option<i32>
    ensures { coded_of result ≡ code_at floor_table code }
{
    coded(&FLOOR, code)
}

// The code's value among eight in even steps, or nothing where the code is past them.
fn stepped(code: u8, first: u16, step: u16) -> Option<i32>
    requires { (first ≤ 1024) × (step ≤ 1024) }
    ensures { coded_of result ≡ refuse_if (ltb 7 code) 11 0 (taken (pos (step * code + first))) }
{
    match code {
        0..=7 => Some((step * code as u16 + first) as i32),
        _ => None,
    }
}

// The fast gain, by fgaincod.
#[tactic(auto, unfolding(crate::specs::Codes::fast_gain))]
pub fn fast_gain(code: u8) -> Option<i32>
    ensures { coded_of result ≡ fast_gain code }
{
    stepped(code, 128, 128)
}

// A leak of the coupling channel, by cplfleak or cplsleak.
#[tactic(auto, unfolding(crate::specs::Codes::leak_of))]
pub fn leak_of(code: u8) -> Option<i32>
    ensures { coded_of result ≡ leak_of code }
{
    stepped(code, 768, 256)
}

// The SNR offset, by csnroffst and fsnroffst: down to -960. Nothing where one of them is past its table.
#[tactic(auto, unfolding(crate::specs::Codes::snr_of, crate::specs::Codes::fine_of))]
pub fn snr_of(csnr: u8, fsnr: u8) -> Option<i32>
    ensures { coded_of result ≡ snr_of csnr fsnr }
{
    match (csnr, fsnr) {
        (0..=63, 0..=15) => Some(4 * (16 * (csnr as i32 - 15) + fsnr as i32)),
        _ => None,
    }
}

// The first bin of a band. Where there is no such band, the end of the last.
// No Option here and in `band_of`: both take any number, as their definitions and docs/DECISIONS.md say.
pub fn start_of(k: Band) -> Bin
    ensures { result.0 ≡ band_start k.0 }
{
    let n = k.0;
    match n {
        0..=27 => Bin(n),
        28..=34 => Bin(28 + 3 * (n - 28)),
        35..=40 => Bin(49 + 6 * (n - 35)),
        41..=44 => Bin(85 + 12 * (n - 41)),
        45..=49 => Bin(133 + 24 * (n - 45)),
        _ => Bin(253),
    }
}

// The band of a bin. Where the bin is past the last band, the number of bands.
// The number has a short name, here and in `start_of`, since the arms use it six times.
pub fn band_of(b: Bin) -> Band
    ensures { result.0 ≡ band_of b.0 }
{
    let n = b.0;
    match n {
        0..=27 => Band(n),
        28..=48 => Band(28 + (n - 28) / 3),
        49..=84 => Band(35 + (n - 49) / 6),
        85..=132 => Band(41 + (n - 85) / 12),
        133..=252 => Band(45 + (n - 133) / 24),
        _ => Band(50),
    }
}

// TS 6.2.2.7, bap by address.
const BAP: [u8; 64] = [
    0, 1, 1, 1, 1, 1, 2, 2, 3, 3, 3, 4, 4, 5, 5, 6, 6, 6, 6, 7, 7, 7, 7, 8, 8, 8, 8, 9, 9, 9, 9,
    10, 10, 10, 10, 11, 11, 11, 11, 12, 12, 12, 12, 13, 13, 13, 13, 14, 14, 14, 14, 14, 14, 14, 14,
    15, 15, 15, 15, 15, 15, 15, 15, 15,
];

// TS E.2.4.3.1, hebap by address.
const HEBAP: [u8; 64] = [
    0, 1, 2, 3, 4, 5, 6, 7, 8, 8, 8, 8, 9, 9, 9, 10, 10, 10, 10, 11, 11, 11, 11, 12, 12, 12, 12,
    13, 13, 13, 13, 14, 14, 14, 14, 15, 15, 15, 15, 16, 16, 16, 16, 17, 17, 17, 17, 18, 18, 18, 18,
    18, 18, 18, 18, 19, 19, 19, 19, 19, 19, 19, 19, 19,
];

// Which pointers a flag asks for: hebap where it is set.
// C's flag: a From<bool> beside it would be a second spelling of what docs/PROMISES.md names.
#[tactic(auto, unfolding(crate::specs::Pointers::pointers_by))]
pub fn pointers_by(high: bool) -> Pointers
    ensures { result ≡ pointers_by high }
{
    if high { Pointers::Hebap } else { Pointers::Bap }
}

// The pointers by address.
pub fn table_of(which: Pointers) -> [u8; 64]
    ensures { result ≡ table_of which }
{
    match which {
        Pointers::Bap => BAP,
        Pointers::Hebap => HEBAP,
    }
}

// Whether the numbers are at most the top. It looks at each, and so at many at a time; a chain that ends at the first one above the top
// looks at one at a time.
fn all_at_most<T: Copy + PartialOrd>(s: &[T], top: T) -> bool
    ensures { result ≡ fold (λ ok e. ok && partial_le T.partial_cmp e top) true s.now }
{
    s.iter().fold(true, |ok, e| ok & (*e <= top))
}

// Whether the numbers from start to end are at most the top, those of them that there are.
// The range stands beside the numbers, since it may end past them.
pub fn all_upto(s: &[u8], start: usize, end: usize, top: usize) -> bool
    ensures { result ≡ upto top s.now start (end - start) }
{
    let stop = end.min(s.len());
    all_at_most(&s[start.min(stop)..stop], top.min(255) as u8)
}

// Whether a lent table has n entries, each at most the top.
fn lent_fits<T: Copy + PartialOrd>(s: &[T], n: usize, top: T) -> bool
    ensures { result ≡ (eqb (length s.now) n && fold (λ ok e. ok && partial_le T.partial_cmp e top) true s.now) }
{
    s.len() == n && all_at_most(s, top)
}

// Whether both lent tables are fit.
pub fn tables_fit(hearing: &[u16], latab: &[u8]) -> bool
    ensures { result ≡ tables_fit hearing.now latab.now }
{
    lent_fits(hearing, 150, 4095) && lent_fits(latab, 256, 64)
}

// Whether there are at most 8 segments, and none has a code past its table.
pub fn delta_fits(d: Delta) -> bool
    ensures { result ≡ delta_fits d }
{
    let n = d.count as usize;
    n <= 8
        && all_upto(&d.offset, 0, n, 31)
        && all_upto(&d.len, 0, n, 15)
        && all_upto(&d.ba, 0, n, 7)
}
