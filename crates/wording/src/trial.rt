// Texts on trial, put together in a lent buffer from an index on. Each function answers the index behind what it put; what finds no room is left out.
// The buffer and the index are no struct: a text is put again and again behind the same front, whose end the caller keeps.

pub fn byte(trial: &mut [u8], at: usize, b: u8) -> usize {
    if at < trial.len() {
        trial[at] = b;
        return at + 1;
    }
    at
}

pub fn bytes(trial: &mut [u8], at: usize, w: &[u8]) -> usize {
    let mut end = at;
    for b in w {
        end = byte(trial, end, *b);
    }
    end
}
