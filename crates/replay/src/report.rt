// What the program writes at its end.
use crate::functions::NAMED;
use crate::tally::Tally;
use std::io;

// The entries that agree for each function, then for all.
pub fn summary(rt: &impl Print, tally: &Tally) -> io::Result<()> {
    for (name, function) in NAMED {
        println!(rt; "{name} {}", tally.of(function))?;
    }
    let Tally {
        agree,
        panics,
        otherwise,
        differ,
        unread,
        unread_files,
        ..
    } = tally;
    if tally.is_whole() {
        println!(rt;
            "all {agree} recorded answers agree, {panics} of them where the Rust panics and {otherwise} where it answers otherwise"
        )
    } else {
        println!(rt;
            "{differ} recorded answers differ and {agree} agree; {unread} lines and {unread_files} files cannot be read"
        )
    }
}
