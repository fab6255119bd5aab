// What the exported C functions share: how a caller is told what a call comes to, and by which flag it names a codec.
//
// A function answers 0 where the call is taken, or the refusal's number. Values and the refusal's bit go into room that the
// caller lends; a value is 0 where the call is refused, and the bit is 0 where it is taken.
#![tactic(auto)]

ghost use Rattle.std.specs.Prelude.{◌≡◌, false};
ghost use Rattle.refusal.specs.Refusals.{grounds, grounds_of, outcome_of};
ghost use Rattle.convention.specs.Replies.{reply, reply_of, told, told_of};
ghost use Rattle.convention.specs.Codecs.{codec_from, is_eac3};

use probe::Codec;
use refusal::Refusal;

// A refusal's number, with its bit in the room for it.
pub fn tell(r: Refusal, bit: &mut usize) -> u8
    ensures { grounds result bit.new ≡ grounds_of r }
{
    *bit = r.bit;
    refusal::number(r.why)
}

// What a call answers: its value is in the room for it then, or `none` where it is refused.
pub fn reply<T: Copy>(answer: Result<T, Refusal>, none: T, value: &mut T, bit: &mut usize) -> u8
    ensures { reply result value.new bit.new ≡ reply_of none (outcome_of answer) }
{
    match answer {
        Ok(v) => {
            *value = v;
            *bit = 0;
            0
        }
        Err(r) => {
            *value = none;
            tell(r, bit)
        }
    }
}

// What a call answers that gives no value.
pub fn done(answer: Result<(), Refusal>, bit: &mut usize) -> u8
    ensures { told result bit.new ≡ told_of (outcome_of answer) }
{
    reply(answer, (), &mut (), bit)
}

// What a read answers.
pub fn got(answer: Result<u32, Refusal>, value: &mut u32, bit: &mut usize) -> u8
    ensures { reply result value.new bit.new ≡ reply_of 0 (outcome_of answer) }
{
    reply(answer, 0, value, bit)
}

// What a comparison answers.
pub fn judged(answer: Result<bool, Refusal>, is: &mut bool, bit: &mut usize) -> u8
    ensures { reply result is.new bit.new ≡ reply_of false (outcome_of answer) }
{
    reply(answer, false, is, bit)
}

// The codec: E-AC-3 where `eac3`.
// A function and no From<bool>: a bool does not say which codec it is.
pub fn codec_from(eac3: bool) -> Codec
    ensures { result ≡ codec_from eac3 }
{
    if eac3 { Codec::Eac3 } else { Codec::Ac3 }
}

// Whether a codec is E-AC-3.
pub fn is_eac3(codec: Codec) -> bool
    ensures { result ≡ is_eac3 codec }
{
    codec == Codec::Eac3
}
