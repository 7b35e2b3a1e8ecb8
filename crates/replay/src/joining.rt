// The `join` lines of docs/REPLAY.md: two rules that are read and joined (document 02, §3).
use crate::{BYTES, WORDS, input, layout, report, show};
use std::io::{Read, Result, Write};

// Two texts, and what came of joining them: the words of the answer, and its number.
#[derive(Clone, Copy)]
struct Joined<'a> {
    first: &'a [u8],
    second: &'a [u8],
    answer: &'a [u32],
    number: u32,
}

impl Joined<'_> {
    // An entry, behind the letter of its form and the text in which its names stand.
    fn entry(self, out: &mut impl Write, letter: u8, from: u32, row: usize) -> Result<()> {
        let text = if from == layout::FIRST_TEXT {
            self.first
        } else {
            self.second
        };
        show::line(out, b"", &[from], &[b'\n', letter, b' ', b'#', b'0'])?;
        show::line(out, text, layout::row(self.answer, row), &[letter, b'0'])
    }

    // What was joined, or the refusal. Each trigger has a word that says its text, and all conditions have the same.
    fn result(self, out: &mut impl Write) -> Result<()> {
        let answer = self.answer;
        if self.number != 0 {
            return show::line(out, b"", answer, b"\nrefused #6 #0 #1 #2 #3");
        }
        show::line(out, b"", answer, b"\naccepted #4 #5")?;
        for i in 0..layout::word(answer, layout::TRIGGER_COUNT) as usize {
            let from = layout::word(answer, layout::TRIGGERS_FROM + i);
            self.entry(out, b'T', from, layout::TRIGGERS + i)?;
        }
        let from = layout::word(answer, layout::CONDITIONS_FROM);
        for i in 0..layout::word(answer, layout::CONDITION_COUNT) as usize {
            self.entry(out, b'C', from, layout::CONDITIONS + i)?;
        }
        Ok(())
    }

    // The lines of one joining, with the words that were lent for each text.
    fn lines(self, out: &mut impl Write, id: u64, words: &[u32], others: &[u32]) -> Result<()> {
        write!(out, "case {id}")?;
        report::buffer(out, words)?;
        report::buffer(out, others)?;
        self.result(out)?;
        out.write_all(b"\n")
    }
}

// What follows `join `; none where it is no such line.
pub fn answer(input: &mut impl Read, out: &mut impl Write) -> Option<()> {
    let id = input::number(input, b' ')?;
    let first_words: usize = input::number(input, b' ')?;
    let second_words: usize = input::number(input, b' ')?;
    let party = input::number(input, b' ')?;
    let primary = input::number(input, b' ')?;
    let first_size = input::number(input, b' ')?;
    let second_size = input::number(input, b' ')?;
    let sheet_size = input::number(input, b' ')?;
    let topics_size = input::number(input, b'\n')?;
    let mut first = [0u8; BYTES];
    let mut second = [0u8; BYTES];
    let mut sheet = [0u8; BYTES];
    let mut topics = [0u8; BYTES];
    let mut words = [layout::UNTOUCHED; WORDS];
    let mut others = [layout::UNTOUCHED; WORDS];
    let mut answer = [layout::UNTOUCHED; layout::ANSWER];
    let first = input::block(input, &mut first, first_size)?;
    let second = input::block(input, &mut second, second_size)?;
    let number = tergyosul::joining::tergyosul_join(
        first,
        second,
        input::block(input, &mut sheet, sheet_size)?,
        input::block(input, &mut topics, topics_size)?,
        party,
        primary,
        words.get_mut(..first_words)?,
        others.get_mut(..second_words)?,
        &mut answer,
    );
    let joined = Joined {
        first,
        second,
        answer: &answer,
        number,
    };
    let _ = joined.lines(out, id, &words, &others);
    Some(())
}
