// An entry is a line
//
//   NAME FIRST SECOND WORDS ARGUMENT.. = FIRST SECOND WORDS ANSWER.. BY
//
// with one space between: the function's name, what it is lent and asked, what the lent bytes and words are after the call,
// what it answers, and who decided. FIRST and SECOND are bytes in hex, at most 2,304. WORDS are words of 32 bits in hex, high
// byte first, at most 256. A `-` stands for none, and after the `=` for what is as before. ARGUMENT and ANSWER are decimal
// numbers, at most 48 each, with 0 for those that are left out. A function's entry says what they are: an argument of a
// narrower type is the number's low bits, and an answer begins with 0 or the refusal's number, the refusal's bit, and the
// value. BY is `rust`, `panics` or `differs`.
ghost use Rattle.std.specs.Prelude.{IfSome};
ghost use Rattle.text.specs.Text.{Counts};

use crate::functions::Function;
use crate::numbers::Row;
use crate::{numbers, words};

// How many bytes a field may hold.
const BYTES: usize = 2304;

// What stands before or after the `=`, each field at the start of its room.
#[derive(Clone, Copy, PartialEq, Eq)]
struct Side {
    first: [u8; BYTES],
    second: [u8; BYTES],
    words: [u32; words::ROOM],
    numbers: Row,
}

// How many bytes and words the fields of a side hold: the rooms are fixed, as there is no heap.
#[derive(Clone, Copy)]
struct Held {
    first: usize,
    second: usize,
    words: usize,
}

// Whether a function answers and leaves what an entry's fields record, and what is left of the line after the answer.
pub fn run(function: Function, fields: &[u8]) -> Option<(bool, &[u8])> {
    let mut call = Side {
        first: [0; BYTES],
        second: [0; BYTES],
        words: [0; words::ROOM],
        numbers: [0; numbers::ROOM],
    };
    let (held, left) = call.read(fields)?;
    // What is recorded after the call is written over what is lent, so that a `-` says that nothing changes.
    let mut recorded = call;
    recorded.numbers = [0; numbers::ROOM];
    let (_, left) = recorded.read(after_equals(left)?)?;
    call.numbers = function.run(
        &mut call.first[..held.first],
        &mut call.second[..held.second],
        &mut call.words[..held.words],
        call.numbers,
    );
    Some((call == recorded, left))
}

impl Side {
    // Puts the fields of a side at the start of their rooms. Answers how much they hold, and what is left of the line.
    fn read<'a>(&mut self, line: &'a [u8]) -> Option<(Held, &'a [u8])>
        ensures { IfSome result (λ r. Counts r.0.first self.new.first × (Counts r.0.second self.new.second × Counts r.0.words self.new.words)) }
    {
        let (first, line) = text::next_bytes(line, &mut self.first)?;
        let (second, line) = text::next_bytes(line, &mut self.second)?;
        let (words, line) = words::next(line, &mut self.words)?;
        let line = numbers::next(line, &mut self.numbers);
        let held = Held {
            first,
            second,
            words,
        };
        Some((held, line))
    }
}

// What is left after an `=`.
fn after_equals(line: &[u8]) -> Option<&[u8]> {
    match text::next_word(line)? {
        (b"=", left) => Some(left),
        _ => None,
    }
}
