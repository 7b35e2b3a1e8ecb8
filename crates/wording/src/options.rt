// The options of the commands that take a name sheet. They stand before the files.
use crate::files;
use sheet::{Habit, line};
use std::fmt;
use std::rt::Env;

// What is wrong with the arguments of a call: with its command, with the files of a command, or with its options.
#[derive(Clone, Copy, PartialEq, Eq)]
pub enum BadArguments {
    NoCommand,
    CheckFiles,
    TokensFiles,
    SameFiles,
    JoinFiles,
    WriteFiles,
    RowsFiles,
    BackFiles,
    ChainsFiles,
    // There is no such option.
    Unknown,
    // An option has no number from 0 to 255 behind it.
    NoNumber,
    // An option is given twice.
    Twice,
    // The archive loader's habit and the shop profile are asked for together.
    Both,
    // One of these is asked for where rules are read by the default call alone.
    NoHabit,
    // What is about rules is asked for where none is read.
    NoRule,
}

impl BadArguments {
    fn of_files(self) -> &'static str {
        match self {
            BadArguments::CheckFiles => "check takes two files: a rule and a name sheet",
            BadArguments::TokensFiles => "tokens takes one file: a rule",
            BadArguments::SameFiles => {
                "same takes two files, both of them rules, and no option; before the name of a file that begins with a dash write ./"
            }
            BadArguments::JoinFiles => "join takes three files: two rules and a name sheet",
            BadArguments::WriteFiles => "write takes two files: a rule and a name sheet",
            BadArguments::RowsFiles => "rows takes two files: one of rows and a name sheet",
            BadArguments::BackFiles => "rows-back takes two files: a rule and a name sheet",
            BadArguments::ChainsFiles => "nothing stands behind chains",
            _ => "there is no such command",
        }
    }
}

impl fmt::Display for BadArguments {
    fn fmt<W: fmt::Write>(&self, f: &mut fmt::Formatter<W>) -> fmt::Result {
        f.write_str(match self {
            BadArguments::Unknown => {
                "there is no such option; before the name of a file that begins with a dash write ./"
            }
            BadArguments::NoNumber => {
                "behind --party, as behind --primary, stands a number from 0 to 255 without leading zeros"
            }
            BadArguments::Twice => "an option is given twice",
            BadArguments::Both => "--archive and --shop do not go together",
            BadArguments::NoHabit => {
                "--archive and --shop do not go together with join, nor with rows-back, which read rules without them"
            }
            BadArguments::NoRule => {
                "--archive, --shop and --topics do not go together with rows, which reads no rule"
            }
            _ => self.of_files(),
        })
    }
}

// What the options say: the habit that is asked for, the numbers that are given, and the index of the word that names the file of topics; and the index of the
// word behind them.
#[derive(Clone, Copy)]
pub struct Options {
    pub habit: Habit,
    pub party: Option<u8>,
    pub primary: Option<u8>,
    pub topics: Option<usize>,
    pub at: usize,
}

// Does the word at an index begin with a dash? Of a long word its first byte is enough.
pub fn is_option(rt: &impl Env, i: usize) -> bool {
    let mut first = [0u8; 1];
    let _ = rt.arg(i, &mut first);
    first[0] == b'-'
}

// The number from 0 to 255 that the word at an index writes, without leading zeros. One of more than four bytes writes none.
fn number_at(rt: &impl Env, i: usize) -> Result<u8, BadArguments> {
    let mut buffer = [0u8; 4];
    let n = line::decimal(files::argument(rt, i, &mut buffer)).ok_or(BadArguments::NoNumber)?;
    u8::try_from(n).map_err(|_| BadArguments::NoNumber)
}

// The index so many words further; the count of the words where there are not so many.
pub fn further(at: usize, words: usize, count: usize) -> usize {
    at.saturating_add(words).min(count)
}

impl Options {
    // None of them, in a call whose words behind the command begin with them.
    fn none() -> Self {
        Options {
            habit: Habit::Rule,
            party: None,
            primary: None,
            topics: None,
            at: 2,
        }
    }

    // With a habit, if none is asked for yet.
    fn with_habit(self, habit: Habit, count: usize) -> Result<Self, BadArguments> {
        match (self.habit, habit) {
            (Habit::Rule, _) => Ok(Options {
                habit,
                at: further(self.at, 1, count),
                ..self
            }),
            (Habit::Archive, Habit::Archive) | (Habit::Shop, Habit::Shop) => {
                Err(BadArguments::Twice)
            }
            _ => Err(BadArguments::Both),
        }
    }

    // The number behind an option, which was not given before.
    fn number(self, rt: &impl Env, before: Option<u8>, count: usize) -> Result<u8, BadArguments> {
        if before.is_some() {
            return Err(BadArguments::Twice);
        }
        number_at(rt, further(self.at, 1, count))
    }

    fn with_party(self, rt: &impl Env, count: usize) -> Result<Self, BadArguments> {
        let n = self.number(rt, self.party, count)?;
        Ok(Options {
            party: Some(n),
            at: further(self.at, 2, count),
            ..self
        })
    }

    fn with_primary(self, rt: &impl Env, count: usize) -> Result<Self, BadArguments> {
        let n = self.number(rt, self.primary, count)?;
        Ok(Options {
            primary: Some(n),
            at: further(self.at, 2, count),
            ..self
        })
    }

    // With the file behind `--topics`.
    fn with_topics(self, count: usize) -> Result<Self, BadArguments> {
        if self.topics.is_some() {
            return Err(BadArguments::Twice);
        }
        Ok(Options {
            topics: Some(further(self.at, 1, count)),
            at: further(self.at, 2, count),
            ..self
        })
    }

    // With the option that comes next, if there is one.
    fn with_next(self, rt: &impl Env, count: usize) -> Result<Self, BadArguments> {
        if !is_option(rt, self.at) {
            return Ok(self);
        }
        let mut buffer = [0u8; 16];
        match files::argument(rt, self.at, &mut buffer) {
            b"--archive" => self.with_habit(Habit::Archive, count),
            b"--shop" => self.with_habit(Habit::Shop, count),
            b"--party" => self.with_party(rt, count),
            b"--primary" => self.with_primary(rt, count),
            b"--topics" => self.with_topics(count),
            _ => Err(BadArguments::Unknown),
        }
    }

    // The options of a call with so many words, its own name and the command among them. Four of them go together; a fifth is one too many.
    fn read(rt: &impl Env, count: usize) -> Result<Self, BadArguments> {
        let mut o = Options::none();
        for _ in 0..5 {
            o = o.with_next(rt, count)?;
        }
        Ok(o)
    }

    // The same for a command that takes so many files, which stand behind the options, and nothing else; `wrong` is what is wrong otherwise.
    pub fn before_files(
        rt: &impl Env,
        count: usize,
        files: usize,
        wrong: BadArguments,
    ) -> Result<Self, BadArguments> {
        let o = Options::read(rt, count)?;
        if o.at < count && count - o.at == files {
            return Ok(o);
        }
        Err(wrong)
    }

    // The options of a command that reads rules by the default call.
    pub fn without_habit(self) -> Result<Self, BadArguments> {
        match self.habit {
            Habit::Rule => Ok(self),
            Habit::Archive | Habit::Shop => Err(BadArguments::NoHabit),
        }
    }

    // The options of a command that reads no rule.
    pub fn without_rule(self) -> Result<Self, BadArguments> {
        match (self.habit, self.topics) {
            (Habit::Rule, None) => Ok(self),
            _ => Err(BadArguments::NoRule),
        }
    }
}
