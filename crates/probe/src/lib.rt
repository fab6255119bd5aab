// Frame recognition: which syntax a frame has, and how long it is, from its first six bytes.
#![tactic(auto)]

ghost use Rattle.std.specs.Prelude.{◌≡◌, ◌≤◌, ◌<◌, length};
ghost use Rattle.refusal.specs.Refusals.{outcome_of};
ghost use Rattle.probe.specs.Probe.{rate, words_of, ac3_of, eac3_of, probe_of};

use refusal::{Refusal, Why};

// The two syntaxes.
#[derive(Clone, Copy, Debug, PartialEq, Eq)]
pub enum Codec {
    // bsid 0 to 8 (TS clause 4).
    Ac3,
    // bsid 11 to 16 (TS annex E).
    Eac3,
}

// What a frame's first bytes say: its syntax, and its length in bytes.
#[derive(Clone, Copy, Debug, PartialEq, Eq)]
pub struct Header {
    pub codec: Codec,
    pub bytes: usize,
}

// The sync word: the first 16 bits of every frame (TS 4.4.1.1).
pub const SYNC: u32 = 0x0B77;

// The bit rates, in kilobits a second, by frmsizecod halved (TS 4.4.1.4).
static RATES: [u16; 19] = [
    32, 40, 48, 56, 64, 80, 96, 112, 128, 160, 192, 224, 256, 320, 384, 448, 512, 576, 640,
];

// The rate of a frmsizecod, in a function of its own, since the bound of its index is of this table alone.
#[tactic(auto, unfolding(crate::specs::Probe::rate))]
fn rate_of(code: u32) -> u16
    requires { code < 38 }
    ensures { result ≡ rate code }
{
    RATES[(code / 2) as usize]
}

// How many words of 16 bits an AC-3 frame has, by fscod and frmsizecod.
// fscod is the two bits that are read, as `words_of` has it.
#[tactic(auto, unfolding(crate::specs::Probe::words_of))]
fn ac3_frame_words(fscod: u32, code: u32) -> u32
    requires { (fscod < 3) × (code < 38) }
    ensures { result ≡ words_of fscod code }
{
    let rate = rate_of(code) as u32;
    match fscod {
        0 => 2 * rate,
        1 => 320 * rate / 147 + code % 2,
        _ => 3 * rate,
    }
}

// An AC-3 frame: 4 for an fscod or a frmsizecod without a meaning.
// A match on bsid calls this one or the other, which read other fields.
#[tactic(auto, using(bits::proofs::AnswerLaws::got_value), unfolding(crate::specs::Probe::ac3_of))]
fn ac3(frame: &[u8]) -> Result<Header, Refusal>
    requires { 6 ≤ length frame.now }
    ensures { outcome_of result ≡ ac3_of frame.now }
{
    let fscod = bits::get(frame, 32, 2)?;
    let code = bits::get(frame, 34, 6)?;
    if fscod == 3 || 37 < code {
        return Err(Why::BadSize.at(0));
    }
    let words = ac3_frame_words(fscod, code);
    Ok(Header {
        codec: Codec::Ac3,
        bytes: 2 * words as usize,
    })
}

// An E-AC-3 frame.
#[tactic(auto, using(bits::proofs::AnswerLaws::got_value), unfolding(crate::specs::Probe::eac3_of))]
fn eac3(frame: &[u8]) -> Result<Header, Refusal>
    requires { 6 ≤ length frame.now }
    ensures { outcome_of result ≡ eac3_of frame.now }
{
    let frmsiz = bits::get(frame, 21, 11)?;
    Ok(Header {
        codec: Codec::Eac3,
        bytes: 2 * (frmsiz as usize + 1),
    })
}

// The syntax and the length of the frame that begins so; the rest of it need not be there. 3, then 2, then 5, then 4 for AC-3.
#[tactic(auto, using(bits::proofs::AnswerLaws::got_value), unfolding(crate::specs::Probe::probe_of))]
pub fn probe(frame: &[u8]) -> Result<Header, Refusal>
    ensures { outcome_of result ≡ probe_of frame.now }
{
    if frame.len() < 6 {
        return Err(Why::ShortHeader.at(0));
    }
    if bits::get(frame, 0, 16)? != SYNC {
        return Err(Why::NoSync.at(0));
    }
    match bits::get(frame, 40, 5)? {
        0..=8 => ac3(frame),
        11..=16 => eac3(frame),
        _ => Err(Why::BadBsid.at(0)),
    }
}
