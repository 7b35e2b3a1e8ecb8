// A refusal of a rule text with what is known of its place.
use crate::lexed::Lexed;
use crate::{characters, layout, split};
use sheet::Call;

// The refusal; the offset of its place in the text; the text with its tokens, of which there are none if it was not cut into any; the index of the token
// that stands there, which is their count at the end of the text; and the call that refused it.
#[derive(Clone, Copy)]
pub struct Fault<'a> {
    pub number: u32,
    pub line: u32,
    pub column: u32,
    pub detail: u32,
    pub at: usize,
    pub token: usize,
    pub lexed: Lexed<'a>,
    pub call: Call,
}

impl<'a> Fault<'a> {
    // What an answer refuses.
    pub fn of(lexed: Lexed<'a>, answer: &[u32], call: Call) -> Self {
        let line = layout::line(answer);
        let column = layout::column(answer);
        Fault {
            number: layout::number(answer),
            line,
            column,
            detail: layout::detail(answer),
            at: offset(lexed.text, line, column),
            token: lexed.at(line, column),
            lexed,
            call,
        }
    }

    // Is the place the end of the text?
    pub fn is_at_end(self) -> bool {
        self.token == self.lexed.count
    }

    // The bytes of the token at the place.
    pub fn bytes(self) -> &'a [u8] {
        self.lexed.bytes(self.token)
    }

    // The number of the token at the place.
    pub fn value(self) -> u32 {
        self.lexed.number(self.token)
    }
}

// The offset of a line and a column, which count characters from 1.
fn offset(text: &[u8], line: u32, column: u32) -> usize {
    let start = split::line_start(text, line);
    let rest = text::part::part(text, start, text.len());
    let (_, behind) = characters::split(rest, (column as usize).saturating_sub(1));
    text.len().saturating_sub(behind.len())
}
