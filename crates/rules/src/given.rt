// What a command is given: the words of its call, the files that they name, and the call of the reader that its options ask for.
use crate::reading;
use sheet::Call;
use wording::options::Options;
use wording::{files, options, seen};

// The most bytes of a file's name.
pub const NAME: usize = 4095;

// More bytes than the reader takes of a file.
pub const BYTES: usize = 20000;

// A file that was read: its name, and its bytes.
#[derive(Clone, Copy)]
pub struct File<'a> {
    pub name: &'a [u8],
    pub bytes: &'a [u8],
}

// What a text is read with: the call, the sheet, and the lent topics of earlier rules.
#[derive(Clone, Copy)]
pub struct Setting<'a> {
    pub call: Call,
    pub sheet: File<'a>,
    pub topics: &'a [u8],
}

// The file with a name, read into a buffer; none where that did not go well, which is said.
pub fn load<'a>(rt: &HostRuntime, name: &'a [u8], buffer: &'a mut [u8]) -> Option<File<'a>> {
    let bytes = files::load(rt, name, buffer)?;
    Some(File { name, bytes })
}

// The topics in the file that the options name, if they name one; none where it was not read, which is said.
fn topics<'a>(rt: &HostRuntime, o: Options, buffer: &'a mut [u8]) -> Option<&'a [u8]> {
    let Some(i) = o.topics else {
        return Some(&[]);
    };
    let mut name = [0u8; NAME];
    files::load_topics(rt, files::argument(rt, i, &mut name), buffer)
}

// The call that the options ask for: for party 0 unless one is given, with the sheet's own primary adapter unless one is given.
fn call(o: Options, sheet: &[u8]) -> Call {
    let own = u8::try_from(reading::primary(sheet)).unwrap_or(0);
    Call {
        habit: o.habit,
        party: o.party.unwrap_or(0),
        primary: o.primary.unwrap_or(own),
    }
}

// The sheet's file and the topics', read into two buffers, and the call; none where one of them was not read, which is said.
pub fn read_setting<'a>(
    rt: &HostRuntime,
    o: Options,
    name: &'a [u8],
    sheet_buffer: &'a mut [u8],
    topics_buffer: &'a mut [u8],
) -> Option<Setting<'a>> {
    let sheet = load(rt, name, sheet_buffer)?;
    let topics = topics(rt, o, topics_buffer)?;
    Some(Setting {
        call: call(o, sheet.bytes),
        sheet,
        topics,
    })
}

// Runs what is done with two files, of which the second is the sheet: the words behind the options name them, in a call with so many. It is not run where one of
// them, or that of the topics, was not read, which is said.
pub fn with_files<F: FnOnce(&HostRuntime, File<'_>, Setting<'_>)>(
    rt: &HostRuntime,
    o: Options,
    count: usize,
    run: F,
)
    requires { F.IsAlwaysCallable run }
{
    let mut name = [0u8; NAME];
    let mut sheet_name = [0u8; NAME];
    let mut bytes = [0u8; BYTES];
    let mut sheet = [0u8; BYTES];
    let mut topics = [0u8; BYTES];
    let name = files::argument(rt, o.at, &mut name);
    let sheet_name = files::argument(rt, options::further(o.at, 1, count), &mut sheet_name);
    if let Some(file) = load(rt, name, &mut bytes)
        && let Some(setting) = read_setting(rt, o, sheet_name, &mut sheet, &mut topics)
    {
        run(rt, file, setting);
    }
}

impl<'a> Setting<'a> {
    // The same with what the call's party sees of the sheet, put into a buffer.
    pub fn seen(self, buffer: &'a mut [u8]) -> Setting<'a> {
        let size = seen::put(self.sheet.bytes, self.call.party, buffer);
        let sheet = File {
            name: self.sheet.name,
            bytes: text::part::part(buffer, 0, size),
        };
        Setting { sheet, ..self }
    }
}
