// Bit allocation of one channel, ETSI TS 102 366 V1.4.1 ("TS") 6.2.2: from its exponents and side information to the pointers of its bins.
#![tactic(auto)]

ghost use Rattle.std.specs.Prelude.{◌≡◌, ◌+◌, ◌-◌, ◌<◌, ◌≤◌, min, max, length, get_or, true, false, not, ◌&&◌, ltb, eqb, pos, ◌-ℤ◌, MatchOption};
ghost use Rattle.std.specs.Int.Signed.{le_z, shr_z};
ghost use Rattle.refusal.specs.Refusals.{ran_of};
ghost use Rattle.tables.specs.Numbers.{max_z};
ghost use Rattle.tables.specs.Bands.{zeros, band_start, band_of};
ghost use Rattle.tables.specs.Codes.{coded_of};
ghost use Rattle.tables.specs.Fits.{upto, tables_fit};
ghost use Rattle.alloc.specs.Table.{noughts};
ghost use Rattle.alloc.specs.Params.{curve_of, levels_of, start_of, leaks_of, begins_at, decoded_of};
ghost use Rattle.alloc.specs.Clauses.{logadd as logadd_of, rises as rises_of, low_step, calc_lowcomp, mask_step, band_sum, mask_at, masks_of, deltas_of, delta_of, add_segment, baps_of, pointed, band_power, band_powers, psd_of, powers_of, address as address_of};
ghost use Rattle.alloc.specs.Excite.{decayed, step_first, step_begin, step_low, step_high, step_full, low_next, step, excite_of};
ghost use Rattle.alloc.specs.Ranges.{Power, Powers, BandPowers, Sum, Sums, Excited, Excitations, Low, Gain, Knee, Floor, Snr, Masks, ShiftedMask, ShiftedMasks, Shift, Cut, Tame, Kept, Segments, Decoded};
ghost use Rattle.alloc.specs.Channel.{masks_from, pointers_of};
ghost use Rattle.alloc.specs.Answers.{channel_of, filled, allocate_of};

use refusal::{Refusal, Why};
use tables::{Band, Bin, Delta, Pointers};

// The side information of a channel by its names in TS, not yet decoded.
#[derive(Clone, Copy)]
pub struct Codes {
    pub sdcycod: u8,
    pub fdcycod: u8,
    pub sgaincod: u8,
    pub dbpbcod: u8,
    pub floorcod: u8,
    pub fgaincod: u8,
    pub csnroffst: u8,
    pub fsnroffst: u8,
    pub fscod: u8,
}

// The leaks that the coupling channel begins with, not yet decoded.
#[derive(Clone, Copy)]
pub struct Leak {
    pub cplfleak: u8,
    pub cplsleak: u8,
}

// The decays and gains of a channel. Their range, and below that of what is carried, stands in clauses (`Tame`, `Kept`) and not in the
// types: the definitions, such as `step_low`, are over any numbers, which a type with an invariant would not have. So do the ranges of single
// numbers below (`Sum`, `Low`, `Knee`, `Cut`) and of their arrays: a type for each would be wrapped and unwrapped at every sum.
#[derive(Clone, Copy)]
struct Curve {
    sdecay: i32,
    fdecay: i32,
    sgain: i32,
    fgain: i32,
}

// The decays and gains of the codes.
#[tactic(auto, unfolding(crate::specs::Params::curve_of))]
fn curve_of(codes: Codes) -> Option<Curve>
    ensures { coded_of result ≡ curve_of codes }
{
    Some(Curve {
        sdecay: tables::slow_decay(codes.sdcycod)?,
        fdecay: tables::fast_decay(codes.fdcycod)?,
        sgain: tables::slow_gain(codes.sgaincod)?,
        fgain: tables::fast_gain(codes.fgaincod)?,
    })
}

// The knee, the floor, the SNR offset, and the row of HEARING.
#[derive(Clone, Copy)]
struct Levels {
    knee: i32,
    floor: i32,
    snr: i32,
    fscod: usize,
}

// The levels of the codes.
// fscod has a name of its own, since it is tested and then converted.
#[tactic(auto, unfolding(crate::specs::Params::levels_of))]
fn levels_of(codes: Codes) -> Option<Levels>
    ensures { coded_of result ≡ levels_of codes }
{
    let knee = tables::knee_of(codes.dbpbcod)?;
    let floor = tables::floor_of(codes.floorcod)?;
    let snr = tables::snr_of(codes.csnroffst, codes.fsnroffst)?;
    let fscod = codes.fscod;
    if fscod > 2 {
        return None;
    }
    Some(Levels {
        knee,
        floor,
        snr,
        fscod: fscod as usize,
    })
}

// What goes from a band to the next: the two leaks, the low-frequency compensation, the band's excitation, and whether the leaks decay yet.
#[derive(Clone, Copy)]
struct Carried {
    fast: i32,
    slow: i32,
    low: i32,
    out: i32,
    begun: bool,
}

// What the first band begins with, by its leaks.
fn begins_at(fast: i32, slow: i32) -> Carried
    ensures { result ≡ begins_at fast slow }
{
    Carried {
        fast,
        slow,
        low: 0,
        out: 0,
        begun: false,
    }
}

// What the first band of the coupling channel begins with.
#[tactic(auto, unfolding(crate::specs::Params::leaks_of))]
fn leaks_of(f: u8, s: u8) -> Option<Carried>
    ensures { coded_of result ≡ leaks_of f s }
{
    let fast = tables::leak_of(f)?;
    let slow = tables::leak_of(s)?;
    Some(begins_at(fast, slow))
}

// What the first band begins with. A leak not given is 0, 0.
#[tactic(auto, unfolding(crate::specs::Params::start_of))]
fn begun_of(leak: Option<Leak>) -> Option<Carried>
    ensures { coded_of result ≡ start_of leak }
{
    match leak {
        Some(l) => leaks_of(l.cplfleak, l.cplsleak),
        None => Some(begins_at(0, 0)),
    }
}

// A channel's parameters, decoded.
#[derive(Clone, Copy)]
struct Parameters {
    curve: Curve,
    levels: Levels,
    begun: Carried,
    delta: Delta,
}

// The parameters of the codes, or nothing where one is past its table.
#[tactic(auto, unfolding(crate::specs::Params::decoded_of))]
fn decoded(codes: Codes, leak: Option<Leak>, delta: Delta) -> Option<Parameters>
    ensures { coded_of result ≡ decoded_of codes leak delta }
{
    let curve = curve_of(codes)?;
    let levels = levels_of(codes)?;
    let begun = begun_of(leak)?;
    if !tables::delta_fits(delta) {
        return None;
    }
    Some(Parameters {
        curve,
        levels,
        begun,
        delta,
    })
}

// The bins that a channel has: there are some, and none past the last band.
#[derive(Clone, Copy)]
struct Bins {
    start: Bin,
    end: Bin,
    ghost range: { (start.0 < end.0) × (end.0 ≤ 253) },
}

impl Bins {
    // The first band that has some of them, and the one after the last.
    fn bands(self) -> (Band, Band)
        ensures is { (result.0.0 ≡ band_of self.start.0) × (result.1.0 ≡ band_of (self.end.0 - 1) + 1) }
        ensures order { (result.0.0 < result.1.0) × (result.1.0 ≤ 50) }
    {
        let last = tables::band_of(Bin(self.end.0 - 1));
        (tables::band_of(self.start), Band(last.0 + 1))
    }

    // The first of them that a band has, and the one after the last.
    fn of_band(self, k: Band) -> (Bin, Bin)
        requires { (band_of self.start.0 ≤ k.0) × (k.0 < band_of (self.end.0 - 1) + 1) }
        ensures is { (result.0.0 ≡ max (band_start k.0) self.start.0) × (result.1.0 ≡ min (band_start (k.0 + 1)) self.end.0) }
        ensures order { (result.0.0 < result.1.0) × (result.1.0 ≤ 253) }
    {
        let lo = tables::start_of(k).0.max(self.start.0);
        let hi = tables::start_of(Band(k.0 + 1)).0.min(self.end.0);
        (Bin(lo), Bin(hi))
    }
}

// 6.2.2.2: the power of a bin.
#[tactic(auto, unfolding(crate::specs::Clauses::psd_of))]
fn psd_of(e: u8) -> i32
    ensures { result ≡ psd_of e }
{
    3072 - 128 * (e as i32)
}

// Puts the powers of a channel's bins, into zeros. Their range stands in the clauses of what reads them: an array in a struct with that
// invariant would be named through a field at each index, and be proved fit at each write.
// Arrays are lent and filled, here and below: one that is returned is copied on its way, a tenth of a call. Loops apart: bounds, what is carried
// and what is known differ, and a closure would have each one's contract anew.
fn powers(exp: &[u8; 256], bins: Bins, psd: &mut [i32; 256])
    requires { psd.old ≡ noughts 256 }
    ensures { psd.new ≡ powers_of exp.now bins.start.0 bins.end.0 }
{
    for i in bins.start.0..bins.end.0 {
        psd[i] = psd_of(exp[i]);
    }
}

// 6.2.2.3: the sum of two powers.
fn logadd(a: i32, b: i32, latab: &[u8; 256]) -> i32
    requires { Sum a × Sum b }
    ensures { result ≡ logadd_of latab.now a b }
{
    let at = (a.abs_diff(b) / 2).min(255) as usize;
    b.max(a) + latab[at] as i32
}

// The power of the bins from lo to hi.
// The powers and the lent table come apart: one is made here, the other is lent for every channel.
fn band_sum(psd: &[i32; 256], latab: &[u8; 256], lo: usize, hi: usize) -> i32
    requires { (lo < hi) × (hi ≤ 256) × Powers psd.now }
    ensures { result ≡ band_sum latab.now (λ k. get_or psd.now k (pos 0)) lo (hi - 1 - lo) }
{
    let mut acc = psd[lo];
    for j in lo + 1..hi {
        acc = logadd(acc, psd[j], latab);
    }
    acc
}

// The power of a band, over the bins that the channel has of it.
#[tactic(auto, unfolding(crate::specs::Clauses::band_power))]
fn band_power(psd: &[i32; 256], latab: &[u8; 256], bins: Bins, k: Band) -> i32
    requires { Powers psd.now × (band_of bins.start.0 ≤ k.0) × (k.0 < band_of (bins.end.0 - 1) + 1) }
    ensures { result ≡ band_power latab.now (λ j. get_or psd.now j (pos 0)) bins.start.0 bins.end.0 k.0 }
{
    let (lo, hi) = bins.of_band(k);
    band_sum(psd, latab, lo.0, hi.0)
}

// Puts the powers of the bands that the channel has, into zeros.
fn band_powers(psd: &[i32; 256], latab: &[u8; 256], bins: Bins, out: &mut [i32; 50])
    requires { Powers psd.now × (out.old ≡ noughts 50) }
    ensures { out.new ≡ band_powers latab.now (λ j. get_or psd.now j (pos 0)) bins.start.0 bins.end.0 (band_of (bins.end.0 - 1) + 1) }
{
    let (first, stop) = bins.bands();
    for k in first.0..stop.0 {
        out[k] = band_power(psd, latab, bins, Band(k));
    }
}

// a less `by`, and not below 0.
fn lowered(a: i32, by: i32) -> i32
    requires { Low a × Low by }
    ensures { result ≡ max_z (a -ℤ by) (pos 0) }
{
    (a - by).max(0)
}

// 6.2.2.4: whether the next band's power is 256 above.
// b0 and b1 by their names in TS 6.2.2.4.
#[tactic(auto, unfolding(crate::specs::Clauses::rises))]
fn rises(b0: i32, b1: i32) -> bool
    requires { Sum b0 × Sum b1 }
    ensures { result ≡ rises_of b0 b1 }
{
    b0 + 256 == b1
}

// The low-frequency compensation after a band of power b0, whose next has b1.
#[tactic(auto, unfolding(crate::specs::Clauses::low_step))]
fn low_step(peak: i32, a: i32, b0: i32, b1: i32) -> i32
    requires { Low a × Sum b0 × Sum b1 }
    ensures { result ≡ low_step peak a b0 b1 }
{
    if rises(b0, b1) {
        return peak;
    }
    if b0 > b1 {
        return lowered(a, 64);
    }
    a
}

// The same by band: its peak falls at band 7, and from band 20 on it fades.
// A number that is used more than once has a short name of its own, here and below.
#[tactic(auto, unfolding(crate::specs::Clauses::calc_lowcomp))]
fn calc_lowcomp(a: i32, b0: i32, b1: i32, band: Band) -> i32
    requires { Low a × Sum b0 × Sum b1 }
    ensures { result ≡ calc_lowcomp a b0 b1 band.0 }
{
    let k = band.0;
    if k < 7 {
        return low_step(384, a, b0, b1);
    }
    if k < 20 {
        return low_step(320, a, b0, b1);
    }
    lowered(a, 128)
}

// The LFE's last band has no next one to compare with, and keeps the compensation.
// q is there for every band: `last` says that it is none of the channel's, as the definition has it. The steps below are functions of curve and
// carried values in the order of their definitions, and no methods.
#[tactic(auto, unfolding(crate::specs::Excite::low_next))]
fn low_next(last: bool, low: i32, p: i32, q: i32, k: Band) -> i32
    requires { Low low × Sum p × Sum q }
    ensures { result ≡ low_next last low p q k.0 }
{
    if last {
        return low;
    }
    calc_lowcomp(low, p, q, k)
}

// A leak falls by its decay, and not below the band's power less the gain.
fn decay_to(leak: i32, decay: i32, power: i32, gain: i32) -> i32
    requires { Sum leak × Gain decay × Sum power × Gain gain }
    ensures { result ≡ decayed leak decay power gain }
{
    (power - gain).max(leak - decay)
}

// Bands 0 and 1: the leaks have not begun.
fn step_first(c: Curve, p: i32, low: i32, s: Carried) -> Carried
    requires { Sum p × Gain c.fgain × Gain low }
    ensures { result ≡ step_first c p low s }
{
    Carried {
        low,
        out: p - c.fgain - low,
        begun: false,
        ..s
    }
}

// Whether the leaks decay from the next band on: this band's power is not above the next one's.
fn begins(last: bool, p: i32, q: i32) -> bool
    ensures { result ≡ (not last && le_z p q) }
{
    !last && p <= q
}

// A band of 2 to 6 before the leaks decay.
fn step_begin(c: Curve, p: i32, q: i32, low: i32, last: bool) -> Carried
    requires { Sum p × Tame c × Low low }
    ensures { result ≡ step_begin c p q low last }
{
    let fast = p - c.fgain;
    let slow = p - c.sgain;
    Carried {
        fast,
        slow,
        low,
        out: fast - low,
        begun: begins(last, p, q),
    }
}

// A band up to 21 where the leaks decay.
fn step_low(c: Curve, p: i32, low: i32, s: Carried) -> Carried
    requires { Sum p × Tame c × Kept s × Low low }
    ensures { result ≡ step_low c p low s }
{
    let fast = decay_to(s.fast, c.fdecay, p, c.fgain);
    let slow = decay_to(s.slow, c.sdecay, p, c.sgain);
    Carried {
        fast,
        slow,
        low,
        out: slow.max(fast - low),
        begun: true,
    }
}

// A band from 22 on, or any of a channel that does not begin at band 0.
// Beside `step_low`: no compensation is taken off, and what was begun stays.
fn step_high(c: Curve, p: i32, s: Carried) -> Carried
    requires { Sum p × Tame c × Kept s }
    ensures { result ≡ step_high c p s }
{
    let fast = decay_to(s.fast, c.fdecay, p, c.fgain);
    let slow = decay_to(s.slow, c.sdecay, p, c.sgain);
    Carried {
        fast,
        slow,
        out: slow.max(fast),
        ..s
    }
}

// Whether the leaks still stand: below band 7, and not yet begun.
fn opening(k: usize, begun: bool) -> bool
    ensures { result ≡ (ltb k 7 && not begun) }
{
    k < 7 && !begun
}

// A band below 22 of a channel that begins at band 0.
// A test and no kind of step: which it is depends on the band and on what was carried.
fn step_full(c: Curve, last: bool, p: i32, q: i32, k: Band, s: Carried) -> Carried
    requires { Sum p × Sum q × Tame c × Kept s }
    ensures { result ≡ step_full c last p q k.0 s }
{
    let n = k.0;
    let low = low_next(last, s.low, p, q, k);
    if n < 2 {
        return step_first(c, p, low, s);
    }
    if opening(n, s.begun) {
        return step_begin(c, p, q, low, last);
    }
    step_low(c, p, low, s)
}

// Whether the low-frequency compensation applies.
fn is_low(first: usize, k: usize) -> bool
    ensures { result ≡ (eqb first 0 && ltb k 22) }
{
    first == 0 && k < 22
}

// Whether the band is the last of the LFE channel, which has 7.
// By its numbers, as `step` tells it: `allocate` is handed no kind of channel.
fn is_last(end: usize, k: usize) -> bool
    ensures { result ≡ (eqb end 7 && eqb k 6) }
{
    end == 7 && k == 6
}

// A band's step.
fn excite_step(c: Curve, first: Band, end: Band, bnd: &[i32; 50], k: Band, s: Carried) -> Carried
    requires { (k.0 < 50) × BandPowers bnd.now × Tame c × Kept s }
    ensures { result ≡ step c first.0 end.0 (λ j. get_or bnd.now j (pos 0)) k.0 s }
{
    let n = k.0;
    let p = bnd[n];
    if is_low(first.0, n) {
        let last = is_last(end.0, n);
        return step_full(c, last, p, bnd[n + 1], k, s);
    }
    step_high(c, p, s)
}

// Puts the excitation of the bands from first to end, into zeros.
// First and end are handed on apart: each loop needs them for its range alone.
fn excitation(c: Curve, first: Band, end: Band, bnd: &[i32; 50], s0: Carried, out: &mut [i32; 50])
    requires { (first.0 ≤ end.0) × (end.0 ≤ 50) × BandPowers bnd.now × Tame c × Kept s0 × (out.old ≡ noughts 50) }
    ensures { out.new ≡ excite_of c first.0 end.0 (λ j. get_or bnd.now j (pos 0)) s0 end.0 }
{
    let mut s = s0;
    for k in first.0..end.0 {
        s = excite_step(c, first, end, bnd, Band(k), s);
        out[k] = s.out;
    }
}

// 6.2.2.5: a band's mask.
#[tactic(auto, unfolding(crate::specs::Clauses::mask_at))]
fn mask_at(excite: i32, power: i32, knee: i32, hth: u16) -> i32
    requires { Excited excite × Sum power × Knee knee }
    ensures { result ≡ mask_at excite power knee hth }
{
    let h = hth as i32;
    if power < knee {
        return h.max(excite + ((knee - power) >> 2));
    }
    h.max(excite)
}

// Puts the masks of the bands from first to end, into zeros.
fn masks(
    excite: &[i32; 50],
    power: &[i32; 50],
    knee: i32,
    hearing: &[u16; 150],
    fscod: usize,
    first: Band,
    end: Band,
    out: &mut [i32; 50],
)
    requires { (fscod ≤ 2) × (first.0 ≤ end.0) × (end.0 ≤ 50) × Excitations excite.now × Sums power.now × Knee knee × (out.old ≡ noughts 50) }
    ensures { out.new ≡ masks_of (λ j. get_or excite.now j (pos 0)) (λ j. get_or power.now j (pos 0)) knee hearing.now fscod first.0 end.0 }
{
    for k in first.0..end.0 {
        out[k] = mask_at(excite[k], power[k], knee, hearing[50 * fscod + k]);
    }
}

// 6.2.2.6: a segment's step, by deltba.
#[tactic(auto, unfolding(crate::specs::Clauses::delta_of))]
fn delta_of(ba: u8) -> i32
    requires { ba < 8 }
    ensures { result ≡ delta_of ba }
{
    let n = ba as i32;
    if ba < 4 {
        return 128 * n - 512;
    }
    128 * (n - 3)
}

// Adds the step to the masks of the bands from a to b. Bands past 49 are skipped.
fn add_segment(mask: &mut [i32; 50], delta: i32, a: usize, b: usize)
    requires { ShiftedMasks mask.old × Shift delta × (a ≤ b) × (b ≤ 1024) }
    ensures { mask.new ≡ add_segment delta a b mask.old }
{
    for k in a.min(50)..b.min(50) {
        mask[k] += delta;
    }
}

// One more segment: it begins at the band where the last one ended, and the answer is where it ends.
fn next_segment(mask: &mut [i32; 50], band: usize, off: u8, len: u8, ba: u8) -> usize
    requires { ShiftedMasks mask.old × (band ≤ 512) × (off ≤ 31) × (len ≤ 15) × (ba < 8) }
    ensures { (mask.new ≡ add_segment (delta_of ba) (band + off) (band + off + len) mask.old) × (result ≡ band + off + len) }
{
    let a = band + (off as usize);
    let b = a + (len as usize);
    let d = delta_of(ba);
    add_segment(mask, d, a, b);
    b
}

// Adds the segments to the masks. They run from band 0.
fn deltas(mask: &mut [i32; 50], d: Delta)
    requires { Masks mask.old × Segments d }
    ensures { mask.new ≡ deltas_of d.offset d.len d.ba mask.old d.count }
{
    let mut band: usize = 0;
    for n in 0..d.count as usize {
        band = next_segment(mask, band, d.offset[n], d.len[n], d.ba[n]);
    }
}

// 6.2.2.7: the mask less the SNR offset and the floor, cut to its bits 5 to 12, and the floor again.
fn mask_step(mask: i32, snr: i32, floor: i32) -> i32
    requires { ShiftedMask mask × Snr snr × Floor floor }
    ensures { result ≡ mask_step mask snr floor }
{
    let m = (mask - snr - floor).max(0);
    let n = (m as usize) % 8192 / 32 * 32;
    (n as i32) + floor
}

// A 32nd of the power above the mask, rounded toward minus infinity.
fn above(psd: i32, m: i32) -> i32
    requires { Power psd × Cut m }
    ensures { result ≡ shr_z (psd -ℤ m) 32 }
{
    (psd - m) >> 5
}

// The place in the table of pointers: what is above the mask, held between 0 and 63.
fn address(psd: i32, m: i32) -> usize
    requires { Power psd × Cut m }
    ensures { (result ≡ address_of psd m) × (result < 64) }
{
    above(psd, m).clamp(0, 63) as usize
}

// Puts the pointers of the bins from lo to hi, which share the mask m. The table is lent and the pointers are written, so no struct has both; the
// arrays are whole, as the definition has them.
fn point(out: &mut [u8; 256], baptab: &[u8; 64], psd: &[i32; 256], m: i32, lo: usize, hi: usize)
    requires { Powers psd.now × Cut m × (lo ≤ hi) × (hi ≤ 256) }
    ensures { out.new ≡ pointed baptab.now (λ j. get_or psd.now j (pos 0)) m lo hi out.old }
{
    for i in lo..hi {
        out[i] = baptab[address(psd[i], m)];
    }
}

// Puts the pointers of a channel's bins, into zeros: band by band, since a band's bins share a mask.
fn baps(
    baptab: &[u8; 64],
    psd: &[i32; 256],
    mask: &[i32; 50],
    snr: i32,
    floor: i32,
    bins: Bins,
    out: &mut [u8; 256],
)
    requires { Powers psd.now × ShiftedMasks mask.now × Snr snr × Floor floor × (out.old ≡ zeros) }
    ensures { out.new ≡ baps_of baptab.now (λ j. get_or psd.now j (pos 0)) (λ j. get_or mask.now j (pos 0)) snr floor bins.start.0 bins.end.0 }
{
    let (first, stop) = bins.bands();
    for k in first.0..stop.0 {
        let (lo, hi) = bins.of_band(Band(k));
        let m = mask_step(mask[k], snr, floor);
        point(out, baptab, psd, m, lo.0, hi.0);
    }
}

// 6.2.2.3 to 6.2.2.5: puts the masks of a channel's bands, into zeros.
// Two arrays: the second is made out of the first, a band with its next one. The two tables of TS go on as two arguments: a struct of them
// would be taken apart in the next call.
fn channel_masks(
    psd: &[i32; 256],
    latab: &[u8; 256],
    hearing: &[u16; 150],
    bins: Bins,
    p: Parameters,
    mask: &mut [i32; 50],
)
    requires { Powers psd.now × Decoded p × (mask.old ≡ noughts 50) }
    ensures { (mask.new ≡ masks_from psd.now latab.now hearing.now bins.start.0 bins.end.0 p.curve p.begun p.levels.knee p.levels.fscod) × Masks mask.new }
{
    let v = p.levels;
    let (first, stop) = bins.bands();
    let mut power: [i32; 50] = [0; 50];
    let mut excite: [i32; 50] = [0; 50];
    band_powers(psd, latab, bins, &mut power);
    excitation(p.curve, first, stop, &power, p.begun, &mut excite);
    masks(&excite, &power, v.knee, hearing, v.fscod, first, stop, mask);
}

// 6.2.2.2 to 6.2.2.7: puts the pointers of a channel, into zeros.
#[tactic(auto, unfolding(crate::specs::Channel::pointers_of))]
fn pointers_of(
    exp: &[u8; 256],
    latab: &[u8; 256],
    hearing: &[u16; 150],
    baptab: &[u8; 64],
    bins: Bins,
    p: Parameters,
    out: &mut [u8; 256],
)
    requires { (upto 24 exp.now bins.start.0 (bins.end.0 - bins.start.0) ≡ true) × Decoded p × (out.old ≡ zeros) }
    ensures { out.new ≡ pointers_of exp.now latab.now hearing.now baptab.now bins.start.0 bins.end.0 p.curve p.begun p.levels p.delta }
{
    let v = p.levels;
    let mut psd: [i32; 256] = [0; 256];
    let mut m: [i32; 50] = [0; 50];
    powers(exp, bins, &mut psd);
    channel_masks(&psd, latab, hearing, bins, p, &mut m);
    deltas(&mut m, p.delta);
    baps(baptab, &psd, &m, v.snr, v.floor, bins, out);
}

// A channel whose parameters are decoded, into zeros.
fn channel(
    exp: &[u8; 256],
    start: Bin,
    end: Bin,
    p: Parameters,
    which: Pointers,
    hearing: &[u16; 150],
    latab: &[u8; 256],
    bap: &mut [u8; 256],
) -> Result<(), Refusal>
    requires { Decoded p × (bap.old ≡ zeros) }
    ensures { ran_of result bap.new ≡ filled (channel_of exp.now start.0 end.0 p.curve p.levels p.begun p.delta which hearing.now latab.now) }
{
    let a = start.0;
    let e = end.0;
    if e <= a {
        return Ok(());
    }
    if e > 253 {
        return Err(Why::BadArgument.at(0));
    }
    if !tables::all_upto(exp, a, e, 24) {
        return Err(Why::ExponentOutside.at(0));
    }
    let baptab = tables::table_of(which);
    pointers_of(exp, latab, hearing, &baptab, Bins { start, end }, p, bap);
    Ok(())
}

// The lent tables where they are fit, with the lengths that they are tested for.
fn lent<'a>(hearing: &'a [u16], latab: &'a [u8]) -> Option<(&'a [u16; 150], &'a [u8; 256])>
    ensures { MatchOption result (tables_fit hearing.now latab.now ≡ false) (λ t. (tables_fit hearing.now latab.now ≡ true) × (t.0.now ≡ hearing.now) × (t.1.now ≡ latab.now)) }
{
    if !tables::tables_fit(hearing, latab) {
        return None;
    }
    Some((hearing.as_array()?, latab.as_array()?))
}

// Puts the pointers of one channel alone, and zeros outside the range and on refusal: 21 for unfit tables, 11 for a code past its table,
// zeros for an empty range, 6 for an end above 253, 8 for an exponent above 24.
pub fn allocate(
    exp: &[u8; 256],
    start: Bin,
    end: Bin,
    codes: Codes,
    leak: Option<Leak>,
    delta: Delta,
    which: Pointers,
    hearing: &[u16],
    latab: &[u8],
    bap: &mut [u8; 256],
) -> Result<(), Refusal>
    ensures { ran_of result bap.new ≡ allocate_of exp.now start.0 end.0 codes leak delta which hearing.now latab.now }
{
    *bap = [0; 256];
    let (hearing, latab) = lent(hearing, latab).ok_or(Why::BadTables.at(0))?;
    let p = decoded(codes, leak, delta).ok_or(Why::CodePastTable.at(0))?;
    channel(exp, start, end, p, which, hearing, latab, bap)
}
