// The program `rules`: checks a rule against a name sheet, for whoever writes the two. `rules help` says how it is called.
#![tactic(auto)]

mod chain_list;
mod checking;
mod comparing;
mod diagnose;
mod entries;
mod entry;
mod expected;
mod from_rows;
mod given;
mod help;
mod joining;
mod lexed;
mod listing;
mod lists;
mod range;
mod reading;
mod to_rows;
mod writing_out;

use crate::given::{File, Setting};
use wording::options::{BadArguments, Options};
use wording::{files, options, out};

fn usage(rt: &HostRuntime) {
    out::bytes(
        rt,
        b"rules: checks the rules of lighting controllers (Tergyosul)

  rules check RULES SHEET       reads the rule in the file RULES with the name sheet in the file SHEET
  rules tokens RULES            lists the words, numbers and signs of the rule
  rules same A B                says whether the rules in the files A and B are the same, layout aside
  rules join A B SHEET          joins the rules in the files A and B, which have the same conditions, into one
  rules write RULES SHEET       writes the rule in the file RULES out in one form, alone on standard output
  rules rows FILE SHEET         converts the previous owners' rows in FILE, one to four, to triggers
  rules rows-back RULES SHEET   converts a rule without conditions to such rows, alone on standard output
  rules chains                  lists every short chain of conditions, one a line
  rules help                    prints this

Options stand before the files of check, join, write, rows and rows-back. join and rows-back have no --archive and no
--shop, rows has besides no --topics; the other commands have no options:

  --archive       reads as the archive loader does: a repeated argument of an input replaces the earlier one; otherwise
                  a repeat is refused
  --shop          reads under the shop profile: a rule has to name each lamp, group, device and input device, and has no
                  broadcast and no reading of event. It does not go together with --archive
  --party P       reads for party P, 0 to 255; otherwise for party 0. On a shared sheet the row party,A,P says that
                  adapter A is party P's, and an adapter without such a row is party 0's. What is on adapters of other
                  parties is as if it were not on the sheet
  --primary A     takes adapter A, 0 to 255, where the rule names none; otherwise the one in the sheet's first line. It
                  has to be the party's
  --topics FILE   counts the mqtt topics in FILE, one a line, as those of earlier rules; otherwise there are none. A new
                  topic is refused if eight others or more are named already. The lines are taken as they come, empty
                  ones aside: a CR at the end of a line belongs to its topic. FILE has at most 16,384 bytes

same compares the words, texts, values and signs of two rules one by one; comments and white space do not count, and 5s
is the value of 5000ms. If all are the same, both rules are read alike with the same sheet and options, which is proved.
Otherwise same shows the first difference in both, and says no more: check shows how each is read.

join reads both rules, and prints the joined rule as check does, each line behind the file that it is taken from: the
triggers of A, then those of B that are not there yet, repeats left out, and then the conditions, which have to be the
same in both, in the same order. At most four triggers may be left. Entries are the same if they are read alike, as
`every 1h` and `every 60m` are, or a lamp's name and its number. The topics of A count as those of an earlier rule for B.

write reads the rule as check does, and prints it in the one form in which a controller's lists are written: on one
line, one space between any two words, numbers and signs, ids in the place of names, and `adapter=` where the adapter is
not the primary one. With the same sheet and options, --shop aside, the text is read as the same rule, which is proved.
What was left out of the original, as its comments, or is written otherwise goes to standard error, so that
`rules write A SHEET > B` gives a file with the rule alone. What stands on an adapter that no row lists is refused with
56.

rows reads rows of the previous owners' archive, one trigger a row, each with an LF behind it: lamp,NAME,A,on or off;
group,NAME,A,any_on or all_off; device,NAME,A,offline or online. NAME is a name of the sheet without a comma, and A its
adapter, or nothing. It prints each row with its trigger in plain words, as check does, or one refusal: 60 for a row
that is not well formed, before any name is looked up, and else 25 and 31 to 34, which mean what they mean in a rule.

rows-back reads a rule as check does, and prints a row for each of its triggers: the name is the first that the sheet
has on a listed adapter and that, with the adapter, means just this lamp, group or device. With the same sheet and
options the rows convert to the same triggers, which is proved. A condition, and a trigger of which no row speaks, is
refused with 61, and what has no such name with 62. What was left out of the rule goes to standard error, as with write.

chains is for comparing readers. It takes no files and prints the 636 chains of one to four conditions, joined by `and`,
that are accepted and have at most fifteen words, numbers and signs, all of these:
lamp sun time is in on off up down sunrise sunset level and 0 63 64 ( ) . .. == + -
Shorter ones come first, then they follow the order of this line, word by word.

check prints each trigger and each condition in plain words, or one refusal: its place, what stands there, what belongs
there, and a way out; so do join, rows and, for a refusal, write and rows-back. Days, as in `at 7:05 on sun, mon..fri`
or `day in sat, sun`, are shown from Monday to Sunday however the rule has them, three or more in a row by the first and
the last: `mon to fri, sun`. The last line begins with `accepted`, or with `refused` and the refusal's number; that of
same with `same` or `different`, or with `refused` and the number if one of the texts is refused with 1, 4 or 10 to 19;
that of write with `when`, since it is the rule, and that of rows-back is a row. If the arguments are bad or a file
cannot be read, it says that behind `refused`. The exit status of this program is always 0, since its language cannot
set another. The script ./rules, which runs it, gives 0 for accepted, written, converted and same, 1 for refused and
different, 2 for bad arguments and for files that cannot be read.
",
    );
}

// What is wrong with the arguments, and the last line of the output.
fn bad_arguments(rt: &HostRuntime, wrong: BadArguments) {
    out::text(rt, wrong);
    out::bytes(
        rt,
        b"\nusage: rules check [--archive | --shop] [--party P] [--primary A] [--topics FILE] RULES SHEET | rules tokens RULES | rules same A B | rules join [--party P] [--primary A] [--topics FILE] A B SHEET | rules write [--archive | --shop] [--party P] [--primary A] [--topics FILE] RULES SHEET | rules rows [--party P] [--primary A] FILE SHEET | rules rows-back [--party P] [--primary A] [--topics FILE] RULES SHEET | rules chains | rules help\nrefused: bad arguments\n",
    );
}

// Runs a command that takes two files, of which the second is a name sheet, if nothing is wrong with its options.
fn with_files<F: FnOnce(&HostRuntime, File<'_>, Setting<'_>)>(
    rt: &HostRuntime,
    o: Result<Options, BadArguments>,
    count: usize,
    run: F,
)
    requires { F.IsAlwaysCallable run }
{
    match o {
        Ok(o) => given::with_files(rt, o, count, run),
        Err(wrong) => bad_arguments(rt, wrong),
    }
}

// Joins two rules: behind the options stand their files and the sheet's, and nothing else.
fn join(rt: &HostRuntime, count: usize) {
    let o = Options::before_files(rt, count, 3, BadArguments::JoinFiles);
    match o.and_then(Options::without_habit) {
        Ok(o) => joining::run(rt, o, count),
        Err(wrong) => bad_arguments(rt, wrong),
    }
}

// Lists the tokens of a rule.
fn list(rt: &HostRuntime, count: usize) {
    if options::is_option(rt, 2) {
        bad_arguments(rt, BadArguments::Unknown);
        return;
    }
    if count == 3 {
        listing::run(rt);
        return;
    }
    bad_arguments(rt, BadArguments::TokensFiles);
}

fn compare(rt: &HostRuntime, count: usize) {
    if count == 4 && !options::is_option(rt, 2) {
        comparing::run(rt);
        return;
    }
    bad_arguments(rt, BadArguments::SameFiles);
}

fn chains(rt: &HostRuntime, count: usize) {
    if count == 2 {
        chain_list::run(rt);
        return;
    }
    bad_arguments(rt, BadArguments::ChainsFiles);
}

// Runs a command of a call with so many arguments, its own name and the command among them.
fn run(rt: &HostRuntime, command: &[u8], count: usize) {
    match command {
        b"help" | b"--help" | b"-h" => usage(rt),
        b"tokens" => list(rt, count),
        b"same" => compare(rt, count),
        b"chains" => chains(rt, count),
        b"check" => {
            let o = Options::before_files(rt, count, 2, BadArguments::CheckFiles);
            with_files(rt, o, count, |rt, rule, setting| {
                checking::run(rt, rule, setting, checking::show)
            });
        }
        b"join" => join(rt, count),
        b"write" => {
            let o = Options::before_files(rt, count, 2, BadArguments::WriteFiles);
            with_files(rt, o, count, |rt, rule, setting| {
                checking::run(rt, rule, setting, writing_out::run)
            });
        }
        b"rows" => {
            let o = Options::before_files(rt, count, 2, BadArguments::RowsFiles);
            with_files(rt, o.and_then(Options::without_rule), count, from_rows::run);
        }
        b"rows-back" => {
            let o = Options::before_files(rt, count, 2, BadArguments::BackFiles);
            with_files(
                rt,
                o.and_then(Options::without_habit),
                count,
                |rt, rule, setting| { checking::run(rt, rule, setting, to_rows::run) },
            );
        }
        _ => bad_arguments(rt, BadArguments::NoCommand),
    }
}

fn main(rt: HostRuntime) {
    let mut command = [0u8; 64];
    let count = files::argument_count(&rt);
    if count < 2 {
        usage(&rt);
        return;
    }
    run(&rt, files::argument(&rt, 1, &mut command), count);
}
