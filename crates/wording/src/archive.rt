// The previous owners' rows, `K,name,A,word` with an LF behind each: their fields, and what is wrong with a row that is refused with 60.
use crate::characters::Backquoted;
use crate::{out, source, split};
use sheet::{kind, line};

// The most rows.
const MOST: u32 = 4;

// A number that is no adapter's.
const NO_ADAPTER: u32 = 256;

// The most bytes of a name.
const MOST_NAME_BYTES: usize = 48;

// The fields of a row, in their order.
#[derive(Clone, Copy, PartialEq, Eq)]
pub enum Field {
    Kind,
    Name,
    Adapter,
    Word,
}

impl Field {
    fn index(self) -> usize {
        match self {
            Field::Kind => 0,
            Field::Name => 1,
            Field::Adapter => 2,
            Field::Word => 3,
        }
    }

    fn word(self) -> &'static str {
        match self {
            Field::Kind => "kind",
            Field::Name => "name",
            Field::Adapter => "adapter",
            Field::Word => "word",
        }
    }
}

fn is_comma(b: &u8) -> bool {
    *b == b','
}

// A row, without its LF.
#[derive(Clone, Copy)]
pub struct Row<'a>(pub &'a [u8]);

// What is wrong with a row. A field that is wrong as a whole is named, and else what there is too much or too little of.
#[derive(Clone, Copy, PartialEq, Eq)]
enum Wrong {
    Fifth,
    Empty,
    ReturnAtEnd,
    FewFields(usize),
    ManyFields(usize),
    BadKind,
    NoName,
    LongName(usize),
    QuoteInName,
    ReturnInName,
    BadAdapter,
    BadWord,
    Unended,
}

impl<'a> Row<'a> {
    // The row with a number.
    pub fn of(archive: &'a [u8], n: u32) -> Self {
        Row(split::line(archive, n))
    }

    // A field; no bytes where there is none.
    pub fn field(self, field: Field) -> &'a [u8] {
        self.0.split(is_comma).nth(field.index()).unwrap_or(b"")
    }

    // Where a field begins.
    fn start(self, field: Field) -> usize {
        split::start(self.0, b',', field.index())
    }

    // The kind, as a sheet counts it; none for one of which no row speaks.
    pub fn kind(self) -> u32 {
        match kind::kind_of(self.field(Field::Kind)) {
            Some(kind::INPUT) | None => kind::NONE,
            Some(kind) => kind,
        }
    }

    // The adapter, if the row names one; NO_ADAPTER where it names one by no number.
    pub fn adapter(self) -> Option<u32> {
        match self.field(Field::Adapter) {
            [] => None,
            a => Some(line::decimal(a).unwrap_or(NO_ADAPTER)),
        }
    }

    fn check_name(self) -> Result<(), Wrong> {
        let name = self.field(Field::Name);
        if name.is_empty() {
            return Err(Wrong::NoName);
        }
        if MOST_NAME_BYTES < name.len() {
            return Err(Wrong::LongName(name.len()));
        }
        if name.contains(&b'"') {
            return Err(Wrong::QuoteInName);
        }
        if name.contains(&b'\r') {
            return Err(Wrong::ReturnInName);
        }
        Ok(())
    }

    // Does the word go with the kind?
    fn is_word(self) -> bool {
        let word = self.field(Field::Word);
        match self.kind() {
            kind::GROUP => matches!(word, b"any_on" | b"all_off"),
            kind::DEVICE => matches!(word, b"offline" | b"online"),
            _ => matches!(word, b"on" | b"off"),
        }
    }

    // What is wrong with a row that has four fields?
    fn check_fields(self) -> Result<(), Wrong> {
        if self.kind() == kind::NONE {
            return Err(Wrong::BadKind);
        }
        self.check_name()?;
        if self.adapter().is_some_and(|a| 255 < a) {
            return Err(Wrong::BadAdapter);
        }
        if !self.is_word() {
            return Err(Wrong::BadWord);
        }
        Ok(())
    }

    // The same of a row, whatever ends it.
    fn check(self) -> Result<(), Wrong> {
        if self.0.is_empty() {
            return Err(Wrong::Empty);
        }
        if self.0.ends_with(b"\r") {
            return Err(Wrong::ReturnAtEnd);
        }
        let commas = split::count(self.0, b',');
        if commas < 3 {
            return Err(Wrong::FewFields(commas + 1));
        }
        if 3 < commas {
            return Err(Wrong::ManyFields(commas.saturating_add(1)));
        }
        self.check_fields()
    }

    // What is wrong with the row, which has a number and is refused.
    fn wrong(self, n: u32) -> Wrong {
        if MOST < n {
            return Wrong::Fifth;
        }
        match self.check() {
            Ok(()) => Wrong::Unended,
            Err(wrong) => wrong,
        }
    }

    // The row with a number, and a mark at an offset; what is said of it goes behind the mark.
    fn marked(self, rt: &impl Print, n: u32, at: usize) {
        let column = source::column(self.0, at);
        source::marked(rt, line::without_return(self.0), n, column);
    }

    // The same at a field, which stands there.
    pub fn marked_at(self, rt: &impl Print, n: u32, field: Field) {
        self.marked(rt, n, self.start(field));
        let w = self.field(field);
        if w.is_empty() {
            out::text(rt, "nothing stands here");
            return;
        }
        let word = field.word();
        let written = Backquoted(w);
        out::text(rt, format_args!("the {word} {written} stands here"));
    }
}

impl Wrong {
    // The field that is wrong as a whole.
    fn field(self) -> Option<Field> {
        match self {
            Wrong::BadKind => Some(Field::Kind),
            Wrong::NoName | Wrong::LongName(_) => Some(Field::Name),
            Wrong::BadAdapter => Some(Field::Adapter),
            Wrong::BadWord => Some(Field::Word),
            _ => None,
        }
    }

    // Where a row is wrong, if not in a field as a whole.
    fn place(self, row: Row<'_>) -> usize {
        match self {
            Wrong::Fifth => 0,
            Wrong::ManyFields(_) => text::find::find(row.0, row.start(Field::Word), b','),
            Wrong::QuoteInName => text::find::find(row.0, 0, b'"'),
            Wrong::ReturnInName | Wrong::ReturnAtEnd => text::find::find(row.0, 0, b'\r'),
            _ => row.0.len(),
        }
    }

    // What stands there.
    fn stands(self) -> &'static str {
        match self {
            Wrong::Fifth => "the fifth row begins here",
            Wrong::Empty => "nothing stands here",
            Wrong::FewFields(_) => "the row ends here",
            Wrong::ManyFields(_) => "the fourth comma stands here",
            Wrong::QuoteInName => "a quote stands here",
            Wrong::Unended => "the file ends here",
            _ => "a CR stands here",
        }
    }

    // What is wrong, in a sentence.
    fn title(self, rt: &impl Print) {
        match self {
            Wrong::FewFields(n) | Wrong::ManyFields(n) => out::text(
                rt,
                format_args!(
                    "a row has four fields, kind, name, adapter and word, and this one has {n}"
                ),
            ),
            Wrong::LongName(n) => out::text(
                rt,
                format_args!("a name has at most 48 bytes, and this one has {n}"),
            ),
            _ => out::text(rt, self.sentence()),
        }
    }

    fn sentence(self) -> &'static str {
        match self {
            Wrong::Fifth => "there are at most four rows, and this is the fifth",
            Wrong::Empty => "this row is empty",
            Wrong::BadKind => "this is no kind of which a row speaks",
            Wrong::NoName => "the name is empty",
            Wrong::QuoteInName => "a name has no quote",
            Wrong::ReturnInName => "a name has no CR",
            Wrong::BadAdapter => "this is no adapter",
            Wrong::BadWord => "this word does not go with the kind",
            Wrong::ReturnAtEnd => "a row ends with LF alone, and this one has a CR before it",
            _ => "this row does not end with LF",
        }
    }

    // The way out; of a word that does not go with the kind it is another.
    fn help(self, kind: u32) -> &'static str {
        match self {
            Wrong::Fifth => "put it into another file",
            Wrong::Empty => "remove the empty line; a row is written as `lamp,Till,1,on`",
            Wrong::FewFields(_) => {
                "write three commas, as in `lamp,Till,1,on`; without an adapter two of them are side by side: `lamp,Till,,on`"
            }
            Wrong::ManyFields(_) => {
                "a name in a row has no comma: write another that the sheet has for it, or add one without a comma to the sheet"
            }
            Wrong::BadKind => "write `lamp`, `group` or `device`",
            Wrong::NoName => "write the name as the sheet has it, as in `lamp,Till,1,on`",
            Wrong::LongName(_) => {
                "write the name as the sheet has it: a letter outside ASCII has two bytes or more"
            }
            Wrong::QuoteInName =>
                "leave the quotes out: the name stands as it is, from comma to comma",
            Wrong::ReturnInName => "remove the CR",
            Wrong::BadAdapter => {
                "write a number from 0 to 255 without leading zeros or blanks, or nothing, as in `lamp,Till,,on`"
            }
            Wrong::BadWord => help_on_word(kind),
            Wrong::ReturnAtEnd => "save the file with LF for its line ends",
            Wrong::Unended => "put an LF behind it: the last row has one, too",
        }
    }
}

// The words that go with a kind.
fn help_on_word(kind: u32) -> &'static str {
    match kind {
        kind::GROUP => "of a group write `any_on` or `all_off`",
        kind::DEVICE => "of a device write `offline` or `online`",
        _ => "of a lamp write `on` or `off`",
    }
}

// The diagnostic of 60 behind the row's number, 0 for none, up to the last line of the output.
pub fn malformed(rt: &impl Print, archive: &[u8], n: u32) {
    if n == 0 {
        out::text(rt, "there is no row\n");
        source::before_help(rt, 0);
        out::text(
            rt,
            "write one to four rows, as `lamp,Till,1,on`, with an LF behind each\n",
        );
        return;
    }
    let row = Row::of(archive, n);
    let wrong = row.wrong(n);
    wrong.title(rt);
    out::line_end(rt);
    match wrong.field() {
        Some(field) => row.marked_at(rt, n, field),
        None => {
            row.marked(rt, n, wrong.place(row));
            out::text(rt, wrong.stands());
        }
    }
    out::line_end(rt);
    source::before_help(rt, n);
    out::text(rt, wrong.help(row.kind()));
    out::line_end(rt);
}
