// Words of 32 bits, as of a log: four bytes each, high byte first.
ghost use Rattle.std.specs.Prelude.{IfSome};
ghost use Rattle.text.specs.Text.{Counts};

// How many words a field may hold, and how many bytes they take.
pub const ROOM: usize = 256;

const BYTES: usize = 4 * ROOM;

// The next word of a line as words of 32 bits, put at the start of out, and how many they are. Bytes that make no whole words
// cannot be read.
pub fn next<'a>(line: &'a [u8], out: &mut [u32]) -> Option<(usize, &'a [u8])>
    ensures { IfSome result (λ w. Counts w.0 out.new) }
{
    let mut room = [0u8; BYTES];
    let (len, left) = text::next_bytes(line, &mut room)?;
    if len % 4 != 0 || out.len() < len / 4 {
        return None;
    }
    let (quads, _) = room[..len].as_chunks::<4>();
    for (word, quad) in out.iter_mut().zip(quads) {
        *word = u32::from_be_bytes(*quad);
    }
    Some((len / 4, left))
}
