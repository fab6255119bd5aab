// A set as it is unpacked: what the next digit is added to, and where its result goes.
ghost use Rattle.std.specs.Prelude.{◌≡◌, ◌+◌, ◌≤◌, replicate};
ghost use Rattle.std.proofs.lemmas.List.Edits.{sets};

use crate::CPL;
use refusal::{Refusal, Why};

// An exponent at size bins from a bin on; those past the last bin are dropped. The test stands in the loop: without it these few stores
// become a call that fills memory. That size is at most 4 is a clause here and where it is made: a type for it would be taken apart at once.
fn put_run(exp: &mut [u8; 256], at: usize, size: usize, e: u8)
    requires { (at ≤ 4096) × (size ≤ 4) }
    ensures { exp.new ≡ sets exp.old at (replicate size e) }
{
    for i in 0..size {
        if at + i < exp.len() {
            exp[at + i] = e;
        }
    }
}

// The last result, the bin of the next, and in how many bins a result stands. The bins are lent beside it, so that these stay in registers.
// How far the next has come is no fact of every run, since each group moves it: who calls bounds it.
#[derive(Clone, Copy)]
pub(crate) struct Run {
    pub(crate) last: u8,
    pub(crate) next: usize,
    pub(crate) size: usize,
    ghost low: { last ≤ 30 },
    ghost small: { size ≤ 4 },
}

impl Run {
    ghost use Rattle.refusal.specs.Refusals.{taken, refuse_if};
    ghost use Rattle.exponents.specs.Set.{outside, digits};
    ghost use Rattle.exponents.specs.Turns.{laid_of, begun_of, holding, step_on, onward};

    // Before any group: the absolute exponent is doubled for coupling, and else itself at bin 0.
    pub(crate) fn begin(exp: &mut [u8; 256], slot: u8, size: usize, start: usize, abs: u8) -> Run
        requires { (size ≤ 4) × (abs ≤ 15) × (start ≤ 256) }
        ensures laid { laid_of result exp.new ≡ begun_of slot start exp.old abs }
        ensures size { result.size ≡ size }
        ensures next { result.next ≤ 256 }
    {
        if slot == CPL {
            return Run {
                last: 2 * abs,
                next: start,
                size,
            };
        }
        exp[0] = abs;
        Run {
            last: abs,
            next: 1,
            size,
        }
    }

    // One digit: 8 where its result is outside 0 to 24, and else the result is laid.
    fn step(&mut self, exp: &mut [u8; 256], digit: u8, bit: usize) -> Result<(), Refusal>
        requires { (digit ≤ 4) × (self.old.next ≤ 4090) }
        ensures laid { holding result (laid_of self.new exp.new) ≡ step_on self.old.size bit (laid_of self.old exp.old) digit }
        ensures size { self.new.size ≡ self.old.size }
        ensures next { self.new.next ≤ self.old.next + self.old.size }
    {
        let sum = self.last + digit;
        if sum < 2 || 24 < sum - 2 {
            return Err(Why::ExponentOutside.at(bit));
        }
        self.last = sum - 2;
        put_run(exp, self.next, self.size, self.last);
        self.next += self.size;
        Ok(())
    }

    // The three digits of a group's value.
    pub(crate) fn unpack(&mut self, exp: &mut [u8; 256], v: u8, bit: usize) -> Result<(), Refusal>
        requires { (v ≤ 124) × (self.old.next ≤ 4000) }
        ensures laid { holding result (laid_of self.new exp.new) ≡ refuse_if (outside self.old.last (digits v)) 8 bit (taken (onward self.old.size (laid_of self.old exp.old) v)) }
        ensures size { self.new.size ≡ self.old.size }
        ensures next { self.new.next ≤ self.old.next + 12 }
    {
        self.step(exp, v / 25, bit)?;
        self.step(exp, v / 5 % 5, bit)?;
        self.step(exp, v % 5, bit)
    }
}
