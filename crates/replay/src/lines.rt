// A file's lines. Comments begin with `#`, and empty lines are passed over. Any other line is an entry.
use crate::entries;
use crate::functions::Function;
use crate::tally::Tally;
use std::io;

// Who decided an entry: the Rust, or document 01 where the Rust panics or answers otherwise.
#[derive(Clone, Copy, Debug, PartialEq, Eq)]
pub enum Decider {
    Rust,
    Panics,
    Differs,
}

// What became of a line.
#[derive(Clone, Copy, Debug, PartialEq, Eq)]
pub enum Became {
    Passed,
    Agrees(Function, Decider),
    Differs,
    Unread,
}

// Replays all lines of a file, and tells the first that does not agree.
// rt and name go on together: one writes, the other is what is written.
pub fn replay_all(rt: &impl Print, name: &str, file: &[u8], tally: &mut Tally) -> io::Result<()> {
    let mut is_told = false;
    for (number, line) in (1u64..).zip(file.split(|b| *b == b'\n')) {
        let became = replay(line);
        tally.count(became);
        if !is_told {
            is_told = tell(rt, name, number, became)?;
        }
    }
    Ok(())
}

// Tells a line that does not agree, and answers whether it is one.
fn tell(rt: &impl Print, name: &str, number: u64, became: Became) -> io::Result<bool> {
    match became {
        Became::Differs => println!(rt; "{name} line {number}: answers differ")?,
        Became::Unread => println!(rt; "{name} line {number}: cannot be read")?,
        _ => return Ok(false),
    }
    Ok(true)
}

fn replay(line: &[u8]) -> Became {
    match line.first() {
        None | Some(b'#') => Became::Passed,
        Some(_) => replay_entry(line).unwrap_or(Became::Unread),
    }
}

// Replays an entry, if it can be read.
fn replay_entry(line: &[u8]) -> Option<Became> {
    let (name, fields) = line.split_at(text::find(line, 0, b' '));
    let function = Function::named(name)?;
    let (agrees, left) = entries::run(function, fields)?;
    let decider = decided_by(left)?;
    if agrees {
        Some(Became::Agrees(function, decider))
    } else {
        Some(Became::Differs)
    }
}

// Who decided, by the last word of a line.
fn decided_by(line: &[u8]) -> Option<Decider> {
    match text::next_word(line)? {
        (b"rust", []) => Some(Decider::Rust),
        (b"panics", []) => Some(Decider::Panics),
        (b"differs", []) => Some(Decider::Differs),
        _ => None,
    }
}
