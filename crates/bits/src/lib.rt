// Bits over lent bytes, most significant first: read, set, compare.
#![tactic(auto)]

ghost use Rattle.std.specs.Prelude.{◌≡◌, ◌+◌, ◌-◌, ◌*◌, ◌/◌, ◌%◌, ◌^◌, ◌≤◌, ◌<◌, length, eqb};
ghost use Rattle.refusal.specs.Refusals.{grounds_of, grounds, outcome_of, ran_of};
ghost use Rattle.bits.specs.Bits.{bits_at, with_bit, set_bit, set_bits};
ghost use Rattle.bits.specs.Answers.{beyond, fit_of, get_of, set_of, range_eq_of, range_zero_of};

use refusal::{Refusal, Why};

// Whether the n bits from pos on pass the end of len bytes. The sum pos + n may pass a usize, so whole bytes and rests are added apart.
// Bytes, position and width come apart, here and below, as C and the public functions have them.
fn passes(len: usize, pos: usize, n: usize) -> bool
    ensures { result ≡ beyond len pos n }
{
    len < pos / 8 + n / 8 + (pos % 8 + n % 8 + 7) / 8
}

// The bytes from first on, count of them, as one number.
// First and count beside the bytes: the clause is over the bits of the whole.
fn gather(s: &[u8], first: usize, count: usize) -> u64
    requires count_bound { count ≤ 8 }
    requires count_in_bounds { first + count ≤ length s.now }
    ensures { result ≡ bits_at s.now (8 * first) (8 * count) }
{
    let mut v: u64 = 0;
    for x in &s[first..first + count] {
        v = v * 256 + *x as u64;
    }
    v
}

// The n bits of v above its lowest spare.
fn cut(v: u64, spare: usize, n: usize) -> u32
    requires { (spare < 64) × (n ≤ 32) }
    ensures { result ≡ v / 2 ^ spare % 2 ^ n }
{
    let top: u64 = 1 << n;
    ((v >> spare) % top) as u32
}

// A bit of lent bytes, as a byte and an offset in it: a position may be any usize, so that position + width can pass one.
// A width is a number beside its place: `get` and `set` test it for their callers, and each function below says of it what it needs.
#[derive(Clone, Copy)]
struct Spot<'a> {
    bytes: &'a [u8],
    first: usize,
    off: usize,
    ghost narrow: { off < 8 },
}

impl<'a> Spot<'a> {
    // The bit at a position.
    fn at(bytes: &'a [u8], pos: usize) -> Spot<'a>
        ensures { (result.bytes ≡ bytes.entry) × (result.first ≡ pos / 8) × (result.off ≡ pos % 8) }
    {
        Spot {
            bytes,
            first: pos / 8,
            off: pos % 8,
        }
    }

    // The bit that stands so many bytes on.
    fn on(self, count: usize) -> Spot<'a>
        requires { self.first + count < 2 ^ 64 }
        ensures { (result.bytes ≡ self.entry.bytes) × (result.first ≡ self.entry.first + count) × (result.off ≡ self.entry.off) }
    {
        Spot {
            bytes: self.bytes,
            first: self.first + count,
            off: self.off,
        }
    }

    // The n bits from here on, where there are five bytes, which is as many as they touch.
    // Apart from `late`, since five bytes are taken without a loop over their count.
    #[tactic(auto, using(crate::proofs::Laws::bits_at_cut))]
    fn early(self, n: usize) -> u32
        requires n_bound { n ≤ 32 }
        requires five { self.first + 5 ≤ length self.bytes.now }
        ensures { result ≡ bits_at self.entry.bytes.now (8 * self.entry.first + self.entry.off) n }
    {
        cut(gather(self.bytes, self.first, 5), 40 - self.off - n, n)
    }

    // The same among the last bytes.
    fn late(self, n: usize) -> u32
        requires n_bound { n ≤ 32 }
        requires last { length self.bytes.now < self.first + 5 }
        requires inside { 8 * self.first + self.off + n ≤ 8 * length self.bytes.now }
        ensures { result ≡ bits_at self.entry.bytes.now (8 * self.entry.first + self.entry.off) n }
    {
        let rest = self.bytes.len() - self.first;
        cut(
            gather(self.bytes, self.first, rest),
            rest * 8 - self.off - n,
            n,
        )
    }

    // The n bits from here on.
    fn word(self, n: usize) -> u32
        requires n_bound { n ≤ 32 }
        requires inside { 8 * self.first + self.off + n ≤ 8 * length self.bytes.now }
        ensures { result ≡ bits_at self.entry.bytes.now (8 * self.entry.first + self.entry.off) n }
    {
        if 5 <= self.bytes.len() - self.first {
            return self.early(n);
        }
        self.late(n)
    }

    // The 56 bits from here on, out of the eight bytes that begin here.
    fn seven(self) -> u64
        requires { self.first + 8 ≤ length self.bytes.now }
        ensures { result ≡ bits_at self.entry.bytes.now (8 * self.entry.first + self.entry.off) 56 }
    {
        (gather(self.bytes, self.first, 8) >> (8 - self.off)) % 0x100_0000_0000_0000
    }
}

// Whether width bits from pos on of len bytes may be read or set: 6 for a width above 32, then 1 for a range past the end.
fn fit(len: usize, pos: usize, width: usize) -> Result<(), Refusal>
    ensures { outcome_of result ≡ fit_of len pos width }
{
    if 32 < width {
        return Err(Why::BadArgument.at(0));
    }
    if passes(len, pos, width) {
        return Err(Why::PastLimit.at(0));
    }
    Ok(())
}

// The n bits from pos on, or 6 for a width above 32, or 1 for a range past the end, which a range with five bytes is not.
pub fn get(s: &[u8], pos: usize, n: usize) -> Result<u32, Refusal>
    ensures { outcome_of result ≡ get_of s.now pos n }
{
    if 32 < n {
        return Err(Why::BadArgument.at(0));
    }
    let spot = Spot::at(s, pos);
    if spot.first + 5 <= s.len() {
        return Ok(spot.early(n));
    }
    if passes(s.len(), pos, n) {
        return Err(Why::PastLimit.at(0));
    }
    Ok(spot.late(n))
}

// The byte x with its bit off, counted from the top, made b.
fn with_bit(x: u8, off: usize, b: u8) -> u8
    requires off_bound { off < 8 }
    requires b_bound { b < 2 }
    ensures { result ≡ with_bit x (7 - off) b }
{
    let w: u8 = 1 << (7 - off);
    (x / w / 2 * 2 + b) * w + x % w
}

// Bit off of byte at made b.
#[tactic(auto, unfolding(crate::specs::Bits::set_bit))]
fn put_bit(s: &mut [u8], at: usize, off: usize, b: u8)
    requires off_bound { off < 8 }
    requires b_bound { b < 2 }
    requires at_in_bounds { at < length s.old }
    ensures { s.new ≡ set_bit s.old (8 * at + off) b }
{
    let x = s[at];
    s[at] = with_bit(x, off, b);
}

// The n bits from pos on made the low bits of v, one bit a turn.
// What each function needs of the range that it is lent is its one clause.
#[tactic(auto, using(crate::proofs::SetLaws::set_bits_zero, crate::proofs::SetLaws::set_bits_turn))]
fn put_word(s: &mut [u8], pos: usize, n: usize, v: u32)
    requires n_bound { n ≤ 32 }
    requires n_bound_2 { pos + n ≤ 8 * length s.old }
    ensures { s.new ≡ set_bits s.old pos n v }
{
    for i in 0..n {
        let at = pos % 8 + i;
        let b = (v >> (n - 1 - i)) % 2;
        put_bit(s, pos / 8 + at / 8, at % 8, b as u8);
    }
}

// The n bits from pos on made the low bits of v, or 6 for a width above 32, or 1 for a range past the end, with nothing changed.
pub fn set(s: &mut [u8], pos: usize, n: usize, v: u32) -> Result<(), Refusal>
    ensures { ran_of result s.new ≡ set_of s.old pos n v }
{
    fit(s.len(), pos, n)?;
    put_word(s, pos, n, v);
    Ok(())
}

// Whether the n bits from x on are those from y on.
fn same_word(x: Spot, y: Spot, n: usize) -> bool
    requires n_bound { n ≤ 32 }
    requires in_x { 8 * x.first + x.off + n ≤ 8 * length x.bytes.now }
    requires in_y { 8 * y.first + y.off + n ≤ 8 * length y.bytes.now }
    ensures { result ≡ eqb (bits_at x.entry.bytes.now (8 * x.entry.first + x.entry.off) n) (bits_at y.entry.bytes.now (8 * y.entry.first + y.entry.off) n) }
{
    x.word(n) == y.word(n)
}

// The same for fewer than 64 bits.
// Two words at most, so no loop over them.
fn same_rest(x: Spot, y: Spot, n: usize) -> bool
    requires n_bound { n < 64 }
    requires in_x { 8 * x.first + x.off + n ≤ 8 * length x.bytes.now }
    requires in_y { 8 * y.first + y.off + n ≤ 8 * length y.bytes.now }
    ensures { result ≡ eqb (bits_at x.entry.bytes.now (8 * x.entry.first + x.entry.off) n) (bits_at y.entry.bytes.now (8 * y.entry.first + y.entry.off) n) }
{
    if n <= 32 {
        return same_word(x, y, n);
    }
    same_word(x, y, 32) && same_word(x.on(4), y.on(4), n - 32)
}

// How many turns of 56 bits n bits take, of those that have eight bytes to read.
fn turns(n: usize) -> usize
    ensures { result ≡ (n - 8) / 56 }
{
    n.saturating_sub(8) / 56
}

// Whether the n bits of x from a on are those of y from b on, 56 bits a turn.
fn same_bits(x: &[u8], a: usize, y: &[u8], b: usize, n: usize) -> bool
    requires n_bound { a + n ≤ 8 * length x.now }
    requires n_bound_2 { b + n ≤ 8 * length y.now }
    ensures { result ≡ eqb (bits_at x.now a n) (bits_at y.now b n) }
{
    let whole = turns(n);
    let left = Spot::at(x, a);
    let right = Spot::at(y, b);
    for k in 0..whole {
        if left.on(7 * k).seven() != right.on(7 * k).seven() {
            return false;
        }
    }
    same_rest(left.on(7 * whole), right.on(7 * whole), n - 56 * whole)
}

// Whether the n bits of x from a on are those of y from b on, or 1 for a range past its buffer.
pub fn range_eq(x: &[u8], a: usize, y: &[u8], b: usize, n: usize) -> Result<bool, Refusal>
    ensures { outcome_of result ≡ range_eq_of x.now a y.now b n }
{
    if passes(x.len(), a, n) || passes(y.len(), b, n) {
        return Err(Why::PastLimit.at(0));
    }
    Ok(same_bits(x, a, y, b, n))
}

// Whether the n bits of x from a on are all zero, 32 bits a turn.
// Beside `same_bits`: a turn has another width, another reader and other buffers.
fn zero_bits(x: &[u8], a: usize, n: usize) -> bool
    requires { a + n ≤ 8 * length x.now }
    ensures { result ≡ eqb (bits_at x.now a n) 0 }
{
    let whole = n / 32;
    let spot = Spot::at(x, a);
    for k in 0..whole {
        if spot.on(4 * k).word(32) != 0 {
            return false;
        }
    }
    spot.on(4 * whole).word(n % 32) == 0
}

// Whether the n bits of x from a on are all zero, or 1 for a range past the end.
pub fn range_zero(x: &[u8], a: usize, n: usize) -> Result<bool, Refusal>
    ensures { outcome_of result ≡ range_zero_of x.now a n }
{
    if passes(x.len(), a, n) {
        return Err(Why::PastLimit.at(0));
    }
    Ok(zero_bits(x, a, n))
}
