// Lent bytes that a call takes or leaves in arrays of its own.

// The first N bytes: zeros where there are fewer.
pub fn array<const N: usize>(from: &[u8]) -> [u8; N] {
    match from.first_chunk::<N>() {
        Some(bytes) => *bytes,
        None => [0; N],
    }
}

// Lays an array over the first bytes: where there is no room for it, all stays.
pub fn lay<const N: usize>(array: &[u8; N], to: &mut [u8]) {
    if let Some(bytes) = to.first_chunk_mut::<N>() {
        *bytes = *array;
    }
}

// The bytes as M rows of N: zeros in a row for which there are fewer.
pub fn rows<const N: usize, const M: usize>(from: &[u8]) -> [[u8; N]; M] {
    let mut rows = [[0; N]; M];
    let mut left = from;
    for row in &mut rows {
        let Some((bytes, after)) = left.split_first_chunk::<N>() else {
            break;
        };
        *row = *bytes;
        left = after;
    }
    rows
}

// Lays rows one after another over the first bytes: those for which there is no room are left out.
pub fn lay_rows<const N: usize>(rows: &[[u8; N]], to: &mut [u8]) {
    let mut left = to;
    for row in rows {
        let Some((bytes, after)) = left.split_first_chunk_mut::<N>() else {
            break;
        };
        *bytes = *row;
        left = after;
    }
}
