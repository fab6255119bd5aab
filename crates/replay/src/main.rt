// Replays recorded answers of the Rust against the proved functions, and says how many agree.
//
// A file of data/ holds an entry a line: `entries` says what a line is. A function more is a case of `Function` with its name and
// an arm in `functions`, and its entry in the module of its layer; a file more is a name in `FILES`.
#![tactic(auto)]

ghost use Rattle.std.specs.Prelude.{◌≤◌, length};

use std::io::Read;
use std::rt::Files;
use std::{fs, io};
use tally::Tally;

mod alloc_entries;
mod bit_entries;
mod block_entries;
mod crc_entries;
mod entries;
mod exponent_entries;
mod frame_entries;
mod functions;
mod lent;
mod lines;
mod low;
mod numbers;
mod report;
mod syntax_entries;
mod tally;
mod told;
mod walk_entries;
mod words;

const FILES: [&str; 9] = [
    "bits.txt",
    "crc.txt",
    "syntax.txt",
    "alloc.txt",
    "exponents.txt",
    "walks.txt",
    "deltas.txt",
    "blocks.txt",
    "frames.txt",
];

// How many bytes a file may hold.
const FILE_BYTES: usize = 65536;

fn main(rt: HostRuntime) -> io::Result<()> {
    let mut tally = Tally::new();
    for name in FILES {
        replay_file(&rt, name, &mut tally)?;
    }
    report::summary(&rt, &tally)
}

// Replays a file's entries. One that cannot be read whole is told, and none of its entries is replayed.
fn replay_file(rt: &(impl Files + Print), name: &str, tally: &mut Tally) -> io::Result<()> {
    match fs::open(rt, name) {
        Ok(file) => replay_open(rt, name, file, tally),
        Err(_) => {
            tally.count_unread_file();
            println!(rt; "{name}: cannot be opened")
        }
    }
}

// The same of a file that is open. Its bytes stand in a fixed room: over the heap the program would trust more of the C library.
fn replay_open(
    rt: &impl Print,
    name: &str,
    mut file: impl Read + Drop,
    tally: &mut Tally,
) -> io::Result<()> {
    let mut room = [0u8; FILE_BYTES];
    let filled = read_full(&mut file, &mut room);
    if !is_at_end(&mut file) {
        tally.count_unread_file();
        return println!(rt; "{name}: cannot be read, or is larger than {FILE_BYTES} bytes");
    }
    lines::replay_all(rt, name, &room[..filled], tally)
}

// Reads until the room is full, the file ends or a read fails, and says how many bytes are at the start of the room then.
// How far a turn gets is the reader's to say, so it is no `for`.
fn read_full(file: &mut impl Read, room: &mut [u8]) -> usize
    ensures { result ≤ length room.new }
{
    let mut filled = 0;
    while filled < room.len() {
        match file.read(&mut room[filled..]) {
            Ok(n) if 0 < n => filled += n,
            _ => break,
        }
    }
    filled
}

// Whether a file has no byte more: one that is larger than the room has, and one that cannot be read does not say so.
fn is_at_end(file: &mut impl Read) -> bool {
    let mut next = [0u8; 1];
    matches!(file.read(&mut next), Ok(0))
}
