// Recorded answers as text: lines, words after single spaces, decimal numbers, bytes in hex.
//
// Any bytes may be handed in. A reader takes what is left of a line, and answers what it reads there with what is left after
// that, or `None` where it cannot be read.
#![tactic(auto)]

ghost use Rattle.std.specs.Prelude.{◌≡◌, ◌+◌, ◌≤◌, max, length, take, drop, IfSome, option_map, position, ◌==◌};
ghost use Rattle.text.specs.Text.{Counts, ahead, after_digit, decimal_of, nibble_of, pair_of, pairs_of, bytes_of, word_from, next_as};

// Where the first b stands from index `at` on: the length where none does, and `at` where that is past the length.
// The length where there is none, and no Option: a line's end serves its caller as a space does.
pub fn find(s: &[u8], at: usize, b: u8) -> usize
    ensures value { result ≡ at + length (ahead b (drop at s.now)) }
    ensures upper_bound { result ≤ max at (length s.now) }
{
    match s.get(at..) {
        Some(rest) => at + place(rest, b).unwrap_or(rest.len()),
        None => at,
    }
}

// The place of the first b.
fn place(s: &[u8], b: u8) -> Option<usize>
    ensures { result ≡ position (λ x. x == b) s.now }
{
    s.iter().position(|x| *x == b)
}

// The number v with one more digit, if b is one and the number is at most `most`.
// No `parse`: that takes a sign, and has no bound but its type's.
#[tactic(auto, unfolding(crate::specs::Text::after_digit))]
fn after_digit(most: u64, v: u64, b: u8) -> Option<u64>
    ensures value_le_most { IfSome result (λ w. w ≤ most) }
    ensures value { result ≡ after_digit most v b }
{
    if !b.is_ascii_digit() {
        return None;
    }
    let tens = v.checked_mul(10)?;
    let number = tens.checked_add(u64::from(b - b'0'))?;
    if most < number {
        return None;
    }
    Some(number)
}

// The number of a word of one decimal digit or more, if it is at most `most`.
#[tactic(auto, unfolding(crate::specs::Text::decimal_of, crate::specs::Text::after_digits))]
pub fn decimal(word: &[u8], most: u64) -> Option<u64>
    ensures value_le_most { IfSome result (λ v. v ≤ most) }
    ensures value { result ≡ decimal_of most word.now }
{
    if word.is_empty() {
        return None;
    }
    let mut v = 0;
    for b in word {
        v = after_digit(most, v, *b)?;
    }
    Some(v)
}

// What a digit in hex stands for.
// No `to_digit`: that takes A to F too.
#[tactic(auto, unfolding(crate::specs::Text::nibble_of))]
fn nibble(b: u8) -> Option<u8>
    ensures { result ≡ nibble_of b }
{
    match b {
        b'0'..=b'9' => Some(b - b'0'),
        b'a'..=b'f' => Some(b - b'a' + 10),
        _ => None,
    }
}

// The byte that two digits in hex make.
#[tactic(auto, unfolding(crate::specs::Text::nibble_of, crate::specs::Text::pair_of))]
fn pair(high: u8, low: u8) -> Option<u8>
    ensures { result ≡ pair_of high low }
{
    let h = nibble(high)?;
    let l = nibble(low)?;
    Some(16 * h + l)
}

// Puts the bytes of pairs of digits at the start of out, and answers how many they are.
// How many stand at the start of the lent room: nothing here is on a heap.
#[tactic(auto, unfolding(crate::specs::Text::pairs_of))]
fn pairs(word: &[u8], out: &mut [u8]) -> Option<usize>
    ensures counts { IfSome result (λ n. Counts n out.new) }
    ensures out_after { option_map (λ n. take n out.new) result ≡ pairs_of (length out.old) word.now }
{
    if word.len() % 2 != 0 || out.len() < word.len() / 2 {
        return None;
    }
    let (digits, _) = word.as_chunks::<2>();
    for (i, [high, low]) in digits.iter().enumerate() {
        out[i] = pair(*high, *low)?;
    }
    Some(digits.len())
}

// Puts the bytes that a word says at the start of out, and answers how many they are. The word `-` stands for none.
#[tactic(auto, using(crate::proofs::Laws::dash), unfolding(crate::specs::Text::bytes_of))]
pub fn hex(word: &[u8], out: &mut [u8]) -> Option<usize>
    ensures counts { IfSome result (λ n. Counts n out.new) }
    ensures out_after { option_map (λ n. take n out.new) result ≡ bytes_of (length out.old) word.now }
{
    if word == b"-".as_slice() {
        return Some(0);
    }
    if word.is_empty() {
        return None;
    }
    pairs(word, out)
}

// The next word of a line: after one space, up to the next or the line's end.
#[tactic(auto, using(crate::proofs::Laws::word_here), unfolding(crate::specs::Text::word_from))]
pub fn next_word(line: &[u8]) -> Option<(&[u8], &[u8])>
    ensures { option_map (λ w. record { value = w.0.now; left = w.1.now }) result ≡ word_from line.now }
{
    let text = line.strip_prefix(b" ")?;
    let end = find(text, 0, b' ');
    Some(text.split_at(end))
}

// The next word of a line as a number of at most `most`.
pub fn next_number(line: &[u8], most: u64) -> Option<(u64, &[u8])>
    ensures value_le_most { IfSome result (λ n. n.0 ≤ most) }
    ensures result_value { option_map (λ n. record { value = n.0; left = n.1.now }) result ≡ next_as (decimal_of most) line.now }
{
    let (word, left) = next_word(line)?;
    let number = decimal(word, most)?;
    Some((number, left))
}

// The next word of a line as bytes, put at the start of out, and how many they are.
// Beside `next_number`: two lines, and the room is lent.
pub fn next_bytes<'a>(line: &'a [u8], out: &mut [u8]) -> Option<(usize, &'a [u8])>
    ensures counts { IfSome result (λ b. Counts b.0 out.new) }
    ensures out_after { option_map (λ b. record { value = take b.0 out.new; left = b.1.now }) result ≡ next_as (bytes_of (length out.old)) line.now }
{
    let (word, left) = next_word(line)?;
    let count = hex(word, out)?;
    Some((count, left))
}
