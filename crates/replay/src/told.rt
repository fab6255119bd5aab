// What a call answers, as a row: 0 or the refusal's number, the refusal's bit, and the value. What is not there is 0, and what
// a function gives besides comes after these three.
use crate::numbers;
use crate::numbers::Row;
use refusal::Refusal;

// The refusal's number, since recorded answers hold it.
pub fn answer(answer: Result<usize, Refusal>) -> Row {
    match answer {
        Ok(value) => numbers::row(&[0, 0, value]),
        Err(refusal) => numbers::row(&[refusal::number(refusal.why) as usize, refusal.bit]),
    }
}
