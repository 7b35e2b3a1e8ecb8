// The reader under test, called here alone: nothing in this program leans on what it ensures. A refusal is a number, as include/tergyosul.h and the documents
// have it, which is a promise; so it stays a number in this program.
use crate::given::Setting;
use model::Answer;
use sheet::{Call, Habit};
use writing::{Lists, Written};

// The words of an answer: nine rows of twelve.
pub const ANSWER: usize = flat::ANSWER_WORDS;

// The words of an answer of lexing.
pub const LEX_ANSWER: usize = 4;

impl Setting<'_> {
    // Reads a rule text; 0, or the number of the refusal.
    pub fn read(self, text: &[u8], words: &mut [u32], answer: &mut [u32]) -> u32 {
        let sheet = self.sheet.bytes;
        let lent = self.topics;
        let Call {
            habit,
            party,
            primary,
        } = self.call;
        match habit {
            Habit::Rule => {
                tergyosul::tergyosul_read(text, sheet, lent, party, primary, words, answer)
            }
            Habit::Archive => {
                tergyosul::tergyosul_read_archive(text, sheet, lent, party, primary, words, answer)
            }
            Habit::Shop => {
                tergyosul::tergyosul_read_shop(text, sheet, lent, party, primary, words, answer)
            }
        }
    }

    // Reads two rule texts and joins them; the habit has no part in it. 0, or the number of the refusal. Each text has words of its own.
    pub fn join(
        self,
        first: &[u8],
        second: &[u8],
        words: &mut [u32],
        others: &mut [u32],
        answer: &mut [u32],
    ) -> u32 {
        tergyosul::joining::tergyosul_join(
            first,
            second,
            self.sheet.bytes,
            self.topics,
            self.call.party,
            self.call.primary,
            words,
            others,
            answer,
        )
    }

    // Reads a rule text as values.
    pub fn values(self, text: &[u8], words: &mut [u32]) -> Answer {
        reader::read::read_by(self.call, text, self.sheet.bytes, self.topics, words)
    }

    // Writes the lists of a rule that was read into a lent buffer, as text; the habit has no part in it.
    pub fn write(self, text: &[u8], l: Lists, into: &mut [u8]) -> Written {
        writer::write(
            text,
            b"",
            self.sheet.bytes,
            self.call.party,
            self.call.primary,
            l,
            into,
        )
    }

    // Converts rows of the archive to triggers, whose words go to the answer; the habit has no part in it.
    pub fn convert(self, archive: &[u8], answer: &mut [u32]) {
        let a = old_rows::convert::convert(
            archive,
            self.sheet.bytes,
            self.call.party,
            self.call.primary,
        );
        flat::put_answer(answer, a);
    }

    // Reads a rule text, and converts its triggers to rows in a lent buffer.
    pub fn back(self, text: &[u8], words: &mut [u32], into: &mut [u8]) -> Written {
        let a = self.values(text, words);
        old_rows::restore::back(
            self.sheet.bytes,
            self.call.party,
            self.call.primary,
            a.triggers,
            a.conditions.count,
            into,
        )
    }
}

// The sheet's own primary adapter; 0 where it names none.
pub fn primary(sheet: &[u8]) -> u32 {
    tergyosul::tergyosul_sheet_primary(sheet)
}

// Cuts a text into tokens, whose records go to the words; 0, or the number of the refusal. Word 3 of the answer is their count.
pub fn lex(text: &[u8], words: &mut [u32], answer: &mut [u32]) -> u32 {
    tergyosul::tergyosul_lex(text, words, answer)
}
