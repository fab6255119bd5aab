// Rows of numbers: what a call is asked, or what it answers. Those that are not there are 0.

// At most so many.
pub const ROOM: usize = 48;

// A number that is not there is 0 and no Option, since the recorded format says so.
pub type Row = [usize; ROOM];

// A row that begins with these; those past its room are left out.
pub fn row(numbers: &[usize]) -> Row {
    let mut row = [0; ROOM];
    for (to, number) in row.iter_mut().zip(numbers) {
        *to = *number;
    }
    row
}

// Puts the next words of a line, up to the first that is no number, at the start of out. Answers what is left after them.
pub fn next<'a>(line: &'a [u8], out: &mut Row) -> &'a [u8] {
    let mut left = line;
    for number in out {
        let Some((value, after)) = text::next_number(left, u64::MAX) else {
            break;
        };
        *number = value as usize;
        left = after;
    }
    left
}
