// A rule text that is cut into tokens.
use crate::given::File;
use crate::{diagnose, reading};
use wording::{layout, lexed};

// The rule, the records of its tokens, and the answer, whose word 3 is their count.
#[derive(Clone, Copy)]
pub struct Lexed<'a> {
    pub file: File<'a>,
    pub words: &'a [u32],
    pub answer: &'a [u32],
}

// The tokens of a rule; none where lexing refuses it, which is said.
pub fn cut<'a>(
    rt: &HostRuntime,
    file: File<'a>,
    words: &'a mut [u32],
    answer: &'a mut [u32],
) -> Option<Lexed<'a>> {
    if reading::lex(file.bytes, words, answer) != 0 {
        diagnose::uncut(rt, file, words, answer);
        return None;
    }
    Some(Lexed {
        file,
        words,
        answer,
    })
}

impl<'a> Lexed<'a> {
    pub fn count(self) -> usize {
        layout::detail(self.answer) as usize
    }

    pub fn tokens(self) -> lexed::Lexed<'a> {
        lexed::Lexed {
            text: self.file.bytes,
            words: self.words,
            count: self.count(),
        }
    }
}
