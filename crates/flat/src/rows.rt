// Rows of words (specs/Flat.antt).
ghost use Rattle.std.specs.Prelude.{◌≡◌, ◌≤◌, length};
ghost use Rattle.flat.specs.Flat.{whole_row, row_set};

pub const ROW_WORDS: usize = 12;

pub type Row = [u32; ROW_WORDS];

// Writes a row. Where there is no room nothing is written.
pub fn put_row(out: &mut [u32], row: usize, words: Row)
    ensures { out.new ≡ row_set out.old row words }
{
    if row < out.len() / ROW_WORDS {
        let at = row * ROW_WORDS;
        out[at..at + ROW_WORDS].copy_from_slice(&words);
    }
}

// The row that begins with these words: zeros stand behind them.
pub(crate) fn row(words: &[u32]) -> Row
    requires { length words.now ≤ 12 }
    ensures { result ≡ whole_row words.now }
{
    let mut row = [0; ROW_WORDS];
    row[..words.len()].copy_from_slice(words);
    row
}
