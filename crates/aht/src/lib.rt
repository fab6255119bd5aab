// The AHT walk of one channel (TS E.2.4.2, E.2.4.4): gaqmod, the gain words, and the mantissas of all six blocks, bin by bin.
//
// Each step moves the tally of the walk, and leaves it where it is refused.
#![tactic(auto)]

ghost use Rattle.std.specs.Prelude.{◌≡◌, cond, ◌+◌, ◌-◌, ◌*◌, ◌^◌, ◌≤◌, ◌<◌, false, length, IfOk};
ghost use Rattle.bits.specs.Bits.{bits_at};
ghost use Rattle.syntax.specs.Reads.{unsound, bare_moved_of};
ghost use Rattle.aht.specs.Aht.{read_on, gained_on, mantissa_on, times, vector_width, gaq_width, is_active, count_active, sections, composite_on, word_on, bins_on, digit, meant, gain_of, gain_at, bin_on, walk_on, mode_on, unfit_aht, aht_of};

use refusal::Why;
use syntax::{Moved, Place, is_unsound};
use tables::Bin;
use walks::is_unfit_range;

// What an AHT walk answers: the tags of large mantissas that it met.
pub type AhtWalked = Moved<usize>;

// What a walk goes over: a frame, and a place in it whose limit lies inside.
// That a mantissa has at most 16 bits, that there are at most 256 codes and that a place is below the limit are clauses of the few steps
// that need them: a type for each would be taken apart there.
#[derive(Clone, Copy)]
struct Over<'a> {
    frame: &'a [u8],
    place: Place,
    ghost sound: { unsound (length frame.now) place ≡ false },
}

// A walk so far: its bit, how many bits before it were read last, and the tags that it met. What was read last is looked at only where it
// counts: of most mantissas nothing but the width is used.
#[derive(Drop)]
struct Tally {
    pos: usize,
    last: usize,
    tags: usize,
    ghost narrow: { last ≤ 32 },
    ghost behind: { last ≤ pos },
    ghost few: { tags ≤ pos },
}

// The gains of active bins in order: gaqmod, the bit at which their words begin, and how many bins had one so far.
// gaqmod, gains and hebaps are numbers, as they are read and lent, and as the definitions have them. How many words lie inside the frame
// depends on the bins to come, so it is a clause and no invariant.
#[derive(Drop)]
struct Gains {
    mode: u8,
    base: usize,
    met: usize,
    ghost known: { mode < 4 },
    ghost near: { base ≤ 32768 },
}

// Bits of a range that lies inside the frame.
// syntax has the same, private too: a public function has no requires.
fn peek(frame: &[u8], pos: usize, n: usize) -> u32
    requires { (n ≤ 32) × (pos + n ≤ 8 * length frame.now) }
    ensures { result ≡ bits_at frame.now pos n }
{
    bits::get(frame, pos, n).unwrap()
}

// The number of s bits whose top bit is 1 and the rest 0.
fn top(s: u8) -> u32
    requires { (0 < s) × (s ≤ 16) }
    ensures { result ≡ 2 ^ (s - 1) }
{
    1 << (s - 1)
}

// Whether a bin has a gain.
fn is_active(mode: u8, h: u8) -> bool
    ensures { result ≡ is_active mode h }
{
    let end = if mode < 2 { 12 } else { 17 };
    7 < h && h < end
}

// The active bins of a list of codes.
fn count_active(mode: u8, hebap: &[u8]) -> usize
    ensures { (result ≡ count_active mode hebap.now) × (result ≤ length hebap.now) }
{
    hebap.iter().filter(|h| is_active(mode, **h)).count()
}

// The gain words that so many active bins have.
fn words_of(mode: u8, n: usize) -> usize
    requires { n ≤ 256 }
    ensures { result ≡ sections mode n }
{
    match mode {
        0 => 0,
        3 => (n + 2) / 3,
        _ => n,
    }
}

// Digit k of three in base 3, the highest first.
fn digit_of(v: u32, k: usize) -> u32
    ensures { result ≡ digit v k }
{
    match k {
        0 => v / 9,
        1 => v % 9 / 3,
        _ => v % 3,
    }
}

// The gain that a digit means.
fn meant_by(d: u32) -> u8
    ensures { result ≡ meant d }
{
    match d {
        0 => 1,
        1 => 2,
        _ => 4,
    }
}

const VECTOR_WIDTHS: [u8; 8] = [0, 2, 3, 4, 5, 7, 8, 9];

// The bits of a vector's index, by hebap. It and `gaq_width` have a table each: one look-up of both would ask for both bounds.
#[tactic(auto, unfolding(crate::specs::Aht::vector_width))]
fn vector_width(h: u8) -> u8
    requires { (0 < h) × (h < 8) }
    ensures { (result ≡ vector_width h) × (0 < result) × (result ≤ 32) }
{
    VECTOR_WIDTHS[h as usize]
}

const GAQ_WIDTHS: [u8; 12] = [3, 4, 5, 6, 7, 8, 9, 10, 11, 12, 14, 16];

// The bits of a mantissa, by hebap from 8 on.
#[tactic(auto, unfolding(crate::specs::Aht::gaq_width))]
fn gaq_width(h: u8) -> u8
    requires { (8 ≤ h) × (h ≤ 19) }
    ensures { (result ≡ gaq_width h) × (3 ≤ result) × (result ≤ 16) }
{
    GAQ_WIDTHS[(h - 8) as usize]
}

impl Gains {
    ghost use Rattle.aht.specs.Tallies.{gain_bits};

    // The gain of the next active bin.
    #[tactic(auto, unfolding(crate::specs::Aht::gain_of))]
    fn gain(&self, frame: &[u8]) -> u8
        requires { (self.now.met ≤ 256) × (self.now.base + gain_bits self.now.mode (self.now.met + 1) ≤ 8 * length frame.now) }
        ensures { result ≡ gain_of frame.now self.now.mode self.now.base self.now.met }
    {
        match self.mode {
            0 => 1,
            3 => {
                let v = peek(frame, self.base + 5 * (self.met / 3), 5);
                meant_by(digit_of(v, self.met % 3))
            }
            mode => {
                if peek(frame, self.base + self.met, 1) == 1 {
                    2 * mode
                } else {
                    1
                }
            }
        }
    }

    // The gain of the next bin, by its hebap.
    fn next(&mut self, frame: &[u8], h: u8) -> u8
        requires { (self.old.met ≤ 256) × (self.old.base + gain_bits self.old.mode (self.old.met + cond (is_active self.old.mode h) 1 0) ≤ 8 * length frame.now) }
        ensures gain { result ≡ gain_at frame.now self.old.mode self.old.base self.old.met h }
        ensures on { (self.new.mode ≡ self.old.mode) × (self.new.base ≡ self.old.base) × (self.new.met ≡ self.old.met + cond (is_active self.old.mode h) 1 0) }
    {
        if !is_active(self.mode, h) {
            return 1;
        }
        let gain = self.gain(frame);
        self.met += 1;
        gain
    }
}

impl<'a> Over<'a> {
    ghost use Rattle.aht.specs.Tallies.{place_at, last_of, stood, went, word_width, gain_bits};

    // The place at a bit.
    fn at(&self, bit: usize) -> Place
        ensures { result ≡ place_at self.now.place bit }
    {
        Place {
            pos: bit,
            ..self.place
        }
    }

    // The next n bits, of which there is one at least: past the limit there is room for none.
    fn read(&self, n: u8, t: &mut Tally) -> Result<(), Why>
        requires { (0 < n) × (n ≤ 32) }
        ensures read { went self.now result t.new ≡ read_on self.now.frame.now n (stood self.now t.old) }
        ensures moved { IfOk result (λ _. (t.new.pos ≡ t.old.pos + n) × (t.new.last ≡ n) × (t.new.tags ≡ t.old.tags) × (t.new.pos ≤ self.now.place.limit)) }
    {
        let width = n as usize;
        if self.place.limit.saturating_sub(t.pos) < width {
            return Err(Why::PastLimit);
        }
        t.pos += width;
        t.last = width;
        Ok(())
    }

    // What was read last.
    fn last_read(&self, t: &Tally) -> u32
        requires { t.now.pos ≤ self.now.place.limit }
        ensures { result ≡ last_of self.now.frame.now t.now }
    {
        peek(self.frame, t.pos - t.last, t.last)
    }

    // A mantissa of s bits, and where it is the tag, the large one of l bits after it.
    fn gained(&self, s: u8, l: u8, t: &mut Tally) -> Result<(), Why>
        requires { (0 < s) × (s ≤ 16) × (0 < l) × (l ≤ 16) }
        ensures { went self.now result t.new ≡ gained_on self.now.frame.now s l (stood self.now t.old) }
    {
        self.read(s, t)?;
        if self.last_read(t) == top(s) {
            self.read(l, t)?;
            t.tags += 1;
        }
        Ok(())
    }

    // The mantissas of one bin in all six blocks, without a gain. Three such loops, and no step as a closure: its contract would be longer
    // than the loop.
    fn six_plain(&self, m: u8, t: &mut Tally) -> Result<(), Why>
        requires { (0 < m) × (m ≤ 16) }
        ensures { went self.now result t.new ≡ times 6 (read_on self.now.frame.now m) (stood self.now t.old) }
    {
        for _block in 0..6usize {
            self.read(m, t)?;
        }
        Ok(())
    }

    // The same with a gain.
    fn six_gained(&self, s: u8, l: u8, t: &mut Tally) -> Result<(), Why>
        requires { (0 < s) × (s ≤ 16) × (0 < l) × (l ≤ 16) }
        ensures { went self.now result t.new ≡ times 6 (gained_on self.now.frame.now s l) (stood self.now t.old) }
    {
        for _block in 0..6usize {
            self.gained(s, l, t)?;
        }
        Ok(())
    }

    // The mantissas of one bin, of width m. Their gain is looked at before the loops, which so hold one kind each.
    fn six(&self, m: u8, gain: u8, t: &mut Tally) -> Result<(), Why>
        requires { (3 ≤ m) × (m ≤ 16) }
        ensures { went self.now result t.new ≡ times 6 (mantissa_on self.now.frame.now m gain) (stood self.now t.old) }
    {
        if gain == 1 {
            return self.six_plain(m, t);
        }
        let (small, large) = if gain == 2 {
            (m - 1, m - 1)
        } else {
            (m - 2, m)
        };
        self.six_gained(small, large, t)
    }

    // A composite gain: 14 above 26.
    #[tactic(auto, unfolding(crate::specs::Aht::composite_on, crate::specs::Aht::refuse_on))]
    fn composite(&self, t: &mut Tally) -> Result<(), Why>
        ensures moved { IfOk result (λ _. (t.new.pos ≡ t.old.pos + 5) × (t.new.pos ≤ self.now.place.limit)) }
        ensures gain { went self.now result t.new ≡ composite_on self.now.frame.now (stood self.now t.old) }
    {
        self.read(5, t)?;
        if 26 < self.last_read(t) {
            return Err(Why::GainAbove);
        }
        Ok(())
    }

    // One gain word.
    #[tactic(auto, unfolding(crate::specs::Aht::word_on))]
    fn word(&self, mode: u8, t: &mut Tally) -> Result<(), Why>
        ensures moved { IfOk result (λ _. (t.new.pos ≡ t.old.pos + word_width mode) × (t.new.pos ≤ self.now.place.limit)) }
        ensures word { went self.now result t.new ≡ word_on self.now.frame.now mode (stood self.now t.old) }
    {
        if mode == 3 {
            self.composite(t)
        } else {
            self.read(1, t)
        }
    }

    // n gain words.
    fn words(&self, mode: u8, n: usize, t: &mut Tally) -> Result<(), Why>
        requires { t.old.pos ≤ self.now.place.limit }
        ensures moved { IfOk result (λ _. (t.new.pos ≡ t.old.pos + n * word_width mode) × (t.new.pos ≤ self.now.place.limit)) }
        ensures words { went self.now result t.new ≡ times n (word_on self.now.frame.now mode) (stood self.now t.old) }
    {
        for _word in 0..n {
            self.word(mode, t)?;
        }
        Ok(())
    }

    // One bin: nothing, a vector's index, 13, or six mantissas.
    #[tactic(auto, unfolding(crate::specs::Aht::bin_on, crate::specs::Aht::refuse_on))]
    fn one_bin(&self, gains: &mut Gains, h: u8, t: &mut Tally) -> Result<(), Why>
        requires { (gains.old.met ≤ 256) × (gains.old.base + gain_bits gains.old.mode (gains.old.met + cond (is_active gains.old.mode h) 1 0) ≤ 8 * length self.now.frame.now) }
        ensures bin { went self.now result t.new ≡ bin_on self.now.frame.now gains.old.mode gains.old.base gains.old.met h (stood self.now t.old) }
        ensures on { (gains.new.mode ≡ gains.old.mode) × (gains.new.base ≡ gains.old.base) × (gains.new.met ≡ gains.old.met + cond (is_active gains.old.mode h) 1 0) }
    {
        match h {
            0 => Ok(()),
            1..=7 => self.read(vector_width(h), t),
            8..=19 => {
                let gain = gains.next(self.frame, h);
                self.six(gaq_width(h), gain, t)
            }
            _ => Err(Why::PointerAbove),
        }
    }

    // The bins in order, whose gain words begin at bit base.
    fn bins(&self, mode: u8, base: usize, hebap: &[u8], t: &mut Tally) -> Result<(), Why>
        requires known { (mode < 4) × (base ≤ 32768) × (length hebap.now ≤ 256) }
        requires inside { base + gain_bits mode (count_active mode hebap.now) ≤ 8 * length self.now.frame.now }
        ensures { went self.now result t.new ≡ walk_on self.now.frame.now mode base 0 hebap.now (stood self.now t.old) }
    {
        let mut gains = Gains { mode, base, met: 0 };
        for h in hebap {
            self.one_bin(&mut gains, *h, t)?;
        }
        Ok(())
    }

    // The gain words, then the bins. base has a name, since it is the bit before the words are read.
    fn after_mode(&self, mode: u8, hebap: &[u8], t: &mut Tally) -> Result<(), Why>
        requires { (mode < 4) × (length hebap.now ≤ 256) × (t.old.pos ≤ self.now.place.limit) }
        ensures { went self.now result t.new ≡ bins_on self.now.frame.now mode hebap.now (stood self.now t.old) }
    {
        let base = t.pos;
        let n = count_active(mode, hebap);
        self.words(mode, words_of(mode, n), t)?;
        self.bins(mode, base, hebap, t)
    }

    // gaqmod, and what follows it.
    fn all(&self, hebap: &[u8], t: &mut Tally) -> Result<(), Why>
        requires { length hebap.now ≤ 256 }
        ensures { went self.now result t.new ≡ mode_on self.now.frame.now hebap.now (read_on self.now.frame.now 2 (stood self.now t.old)) }
    {
        self.read(2, t)?;
        let mode = self.last_read(t) as u8;
        self.after_mode(mode, hebap, t)
    }
}

// Whether a walk can't be asked for so: its place or its range.
// Beside the test of `walks`: there are no groups here.
fn is_unfit(len: usize, place: Place, start: usize, end: usize) -> bool
    ensures { result ≡ unfit_aht len place start end }
{
    is_unsound(len, place) || is_unfit_range(start, end)
}

// Walks over one channel's mantissas of all six blocks in the bins from start to end: 6; then 1, 13 or 14 where it stands. It logs
// nothing.
pub fn aht(frame: &[u8], place: Place, hebap: &[u8; 256], start: Bin, end: Bin) -> AhtWalked
    ensures { bare_moved_of result ≡ aht_of frame.now place hebap.now start.0 end.0 }
{
    if is_unfit(frame.len(), place, start.0, end.0) {
        return Moved {
            answer: Err(Why::BadArgument.at(place.pos)),
            place,
        };
    }
    let over = Over { frame, place };
    let mut tally = Tally {
        pos: place.pos,
        last: 0,
        tags: 0,
    };
    let walked = over.all(&hebap[start.0..end.0], &mut tally);
    let answer = match walked {
        Ok(()) => Ok(tally.tags),
        Err(why) => Err(why.at(tally.pos)),
    };
    Moved {
        answer,
        place: over.at(tally.pos),
    }
}
