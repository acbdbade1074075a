//! The command line.

use crate::form::{places_of, values_of};
use crate::from_openmetrics::TextIn;
use crate::target::Target;
use crate::text_commands::{from_openmetrics, from_rows, text_line_in, to_openmetrics};
use crate::to_openmetrics::ReplyIn;
use crate::words::{DECIMALS, FROM, INTO, Kind, REST, STALE, TO, VALUES, Word, command_of};
use block_folder::Values;
use block_outputs::Stretch;
use clap::error::ErrorKind;
use clap::{ArgMatches, Command, Error};
use imported_values::{Digits, Form, Policy, Rest, Stale};
use labels::{MAX_TIME, MIN_TIME};
use std::alloc::{AllocError, Global};

/// How an import is made.
#[derive(Clone, Copy, Drop)]
pub(crate) struct Options<'a> {
    pub(crate) form: Form,
    pub(crate) times: Stretch,
    pub(crate) into: &'a str,
}

impl<'a> Options<'a> {
    /// The directory for the outputs, and what their values are.
    pub(crate) fn target(&self) -> Target<'a> {
        Target {
            into: self.into,
            digits: places_of(self.form),
            values: values_of(self.form),
        }
    }
}

/// What the words ask for.
#[derive(Drop)]
pub(crate) enum Line<'a> {
    /// Blocks out of the blocks of Prometheus in these directories.
    FromPrometheus(Options<'a>, Vec<&'a str>),
    /// Blocks in this directory, whose values are doubles or what they were, out of the blocks in
    /// these directories.
    Rewrite(&'a str, Option<Values>, Vec<&'a str>),
    /// The blocks in these directories, added to the store in this folder.
    Add(&'a str, Vec<&'a str>),
    /// The blocks of the store in this folder, joined.
    Join(&'a str),
    /// What the blocks in these directories have.
    List(Vec<&'a str>),
    /// Blocks out of a text.
    FromOpenMetrics(Options<'a>, TextIn<'a>),
    /// Blocks out of the rows in this file, or on standard input.
    FromRows(Target<'a>, Option<&'a str>),
    /// Text out of a reply.
    ToOpenMetrics(ReplyIn<'a>),
}

const ABOUT: &str =
    "Exit status: 0 done; 1 refused, with the reason on standard error; 2 a fault of the words;
3 cannot read or write; 4 no memory

Example: blocktool from-prometheus --values doubles --into mine data/01HX*";

const PROMETHEUS: &str =
    "Each BLOCK is a directory with index, chunks/ and tombstones, as Prometheus and promtool write
it, or a folder that holds such blocks, as a server's data: they are taken in the order of their
times, and other directories in it are told and passed over. The outputs are OUT/0001, OUT/0002 and
so on, at most 63, one range of times after another. Of two samples of one series at one time that
of the later BLOCK is kept. OUT must be empty or not be there. Each output is made under another
name, synced, and then renamed.

For each output a line is printed, and then one that tells every sample that was read in one count:
  OUT/0001: 10 series 1200 samples, 1700006400000 to 1700008185001
  read 1200 samples: 1200 kept, 0 stale, 0 of other values, 0 deleted, 0 hidden, 0 outside; ..

A value is kept as a whole number of parts, of which 10^N make one. --rest round keeps a fraction as
the nearest such number, of two the even one, and drops NaN, infinities and 2^63 parts and more.
Stale markers are no samples. Histograms are left. With --values doubles each value is kept as the
double that it is, with all its bits, stale markers too: nothing is dropped, rounded or refused.

A BLOCK is refused with the first check that fails, and a value that is not kept with its place:
  B2        meta.json, of a block in a folder
  I1 to I15 the index
  T1 to T4  the tombstones
  C1 to C4, C6 to C8
            a file of chunks/, or a chunk
  X1 to X7  the data of a chunk

docs/IMPORTING.md of the project explains each code.

Exit status: 0 done; 1 refused, with the place on standard error; 2 a fault of the words; 3 cannot
read or write; 4 no memory

Example: blocktool from-prometheus --values doubles --into mine data/01HX*";

const ABOUT_REWRITE: &str =
    "The outputs are OUT/0001, OUT/0002 and so on, at most 63, one range of times after another,
without the samples that are deleted. Of two samples of one series at one time that of the later DIR
is kept. All DIR must have values of as many digits, and of the same meaning. With --values doubles
whole numbers become doubles: each within 2^53 stands for itself, and another is refused with V4.
The rows of all are in memory at once.

A DIR is refused as by `querier check`: B2, I1 to I15, C1 to C8, T1 to T5, B1.

Exit status: 0 done; 1 refused, with the reason on standard error; 2 a fault of the words; 3 cannot
read or write; 4 no memory

Example: blocktool rewrite --into whole mine/0001 mine/0002";

const ABOUT_ADD: &str =
    "DIR is the folder of `querier serve --data DIR`, which must not run; if it has neither a journal
nor blocks, a store is begun in it. What its journal has is saved, and the samples of each BLOCK
that are not deleted are in the store from then on. Of two samples of one series at one time that
of the store is kept, or else that of the later BLOCK. All BLOCK must have values of as many
digits.

The floor is raised to the end of a BLOCK that ends above it: a server takes no sample below. If
samples that were not cut lie there, nothing is done: cut them first. A store has at most 63 blocks.

All blocks are written beside those that lie there and synced; then a new journal that names them
takes the journal's name, and the others are removed. A crash at any moment leaves the store as it
was, or with each BLOCK. A line tells what was done:
  DIR: 2 blocks added, 5 in all

A BLOCK is refused as by `querier check`: B2, I1 to I15, C1 to C8, T1 to T5, B1; a DIR as by
`querier serve`: J1 to J4, J8 to J20.

Exit status: 0 done; 1 refused, with the reason on standard error; 2 a fault of the words; 3 cannot
read, write or lock; 4 no memory

Example: blocktool add kept mine/0001 mine/0002";

const ABOUT_JOIN: &str =
    "DIR is the folder of `querier serve --data DIR`, which must not run. What its journal has is
saved, and the blocks in DIR/blocks are joined into as few as may have their samples: one, or else
each half of them by itself. Deleted samples are left out. The rows of all are in memory at once.

The joined blocks are written beside those that lie there and synced; then a new journal that names
them takes the journal's name, and the others are removed. A crash at any moment leaves the store as
it was, or joined. A line tells what was done:
  DIR: 63 blocks joined into 1

A DIR is refused as by `querier serve`: J1 to J4, J8 to J20.

Exit status: 0 done; 1 refused, with the reason on standard error; 2 a fault of the words; 3 cannot
read, write or lock; 4 no memory

Example: blocktool join kept";

const ABOUT_LIST: &str =
    "For each DIR, in the order given, a line is printed, and one for each name of its labels:
  DIR: 10 series 1200 samples, 1700006400000 to 1700008185001, 0 deleted, 20841 bytes
    job: 3 values

The range is that of meta.json; the samples are those that are not deleted.

A DIR is refused as by `querier check`: B2, I1 to I15, C1 to C8, T1 to T5, B1.

Exit status: 0 done; 1 refused, with the code on standard error; 2 a fault of the words; 3 cannot
read or write; 4 no memory

Example: blocktool list mine/0001 mine/0002";

/// What `--version` prints behind the name.
const VERSION: &str = "0.1.0 (rattle-kit-13f)";

const IMPORT: [Word<'static>; 8] = [
    VALUES,
    DECIMALS,
    REST,
    STALE,
    FROM,
    TO,
    INTO,
    Word {
        name: "blocks",
        value: "BLOCK",
        help: "A block of Prometheus, or a folder that holds some",
        kind: Kind::Many,
    },
];

const DIRECTORIES: Word<'static> = Word {
    name: "directories",
    value: "DIR",
    help: "A directory with a block",
    kind: Kind::Many,
};

const REWRITE: [Word<'static>; 3] = [VALUES, INTO, DIRECTORIES];

const DATA: Word<'static> = Word {
    name: "data",
    value: "DIR",
    help: "The folder of a store that no server keeps",
    kind: Kind::Sole,
};

const ADD: [Word<'static>; 2] = [
    DATA,
    Word {
        name: "blocks",
        value: "BLOCK",
        help: "A directory with a block",
        kind: Kind::Many,
    },
];

const JOIN: [Word<'static>; 1] = [DATA];

const LIST: [Word<'static>; 1] = [DIRECTORIES];

fn from_prometheus<'a>(alloc: Global) -> Result<Command<'a>, AllocError> {
    let about = "Makes blocks out of blocks of Prometheus";
    command_of(
        alloc,
        "from-prometheus",
        (about, PROMETHEUS),
        IMPORT.as_slice(),
    )
}

fn rewrite<'a>(alloc: Global) -> Result<Command<'a>, AllocError> {
    let about = "Makes blocks of the samples of blocks that are not deleted";
    command_of(alloc, "rewrite", (about, ABOUT_REWRITE), REWRITE.as_slice())
}

fn add_blocks<'a>(alloc: Global) -> Result<Command<'a>, AllocError> {
    let about = "Adds blocks to a store that no server keeps";
    command_of(alloc, "add", (about, ABOUT_ADD), ADD.as_slice())
}

fn join<'a>(alloc: Global) -> Result<Command<'a>, AllocError> {
    let about = "Joins the blocks of a store that no server keeps";
    command_of(alloc, "join", (about, ABOUT_JOIN), JOIN.as_slice())
}

fn list<'a>(alloc: Global) -> Result<Command<'a>, AllocError> {
    let about = "Lists what blocks have";
    command_of(alloc, "list", (about, ABOUT_LIST), LIST.as_slice())
}

/// The program, without its commands.
fn named<'a>(alloc: Global) -> Result<Command<'a>, AllocError> {
    Command::new(alloc, "blocktool")
        .about("Makes blocks for `querier` and `auditor` out of other programs' data")
        .after_help(ABOUT)
        .version(VERSION)
        .no_binary_name(true)
        .subcommand_required(true)
        .bin_name("blocktool")
}

/// Adds a command, if there was memory for it.
fn add<'a>(
    command: Command<'a>,
    other: Result<Command<'a>, AllocError>,
) -> Result<Command<'a>, AllocError> {
    match other {
        Ok(other) => command.subcommand(other),
        Err(error) => Err(error),
    }
}

/// A command of the program.
#[derive(Clone, Copy, Drop)]
enum Verb {
    FromPrometheus,
    Rewrite,
    Add,
    Join,
    List,
    FromOpenMetrics,
    FromRows,
    ToOpenMetrics,
}

/// The commands, in the order of the help.
const VERBS: [Verb; 8] = [
    Verb::FromPrometheus,
    Verb::Rewrite,
    Verb::Add,
    Verb::Join,
    Verb::List,
    Verb::FromOpenMetrics,
    Verb::FromRows,
    Verb::ToOpenMetrics,
];

fn command_for<'a>(alloc: Global, verb: Verb) -> Result<Command<'a>, AllocError> {
    match verb {
        Verb::FromPrometheus => from_prometheus(alloc),
        Verb::Rewrite => rewrite(alloc),
        Verb::Add => add_blocks(alloc),
        Verb::Join => join(alloc),
        Verb::List => list(alloc),
        Verb::FromOpenMetrics => from_openmetrics(alloc),
        Verb::FromRows => from_rows(alloc),
        Verb::ToOpenMetrics => to_openmetrics(alloc),
    }
}

fn blocktool<'a>(alloc: Global) -> Result<Command<'a>, AllocError> {
    let mut command = named(alloc)?;
    for verb in VERBS.as_slice() {
        command = add(command, command_for(alloc, *verb))?;
    }
    Ok(command)
}

fn time_in(found: &ArgMatches<'_>, name: &str, other: i64) -> i64 {
    match found.get_one(name) {
        Some(time) => time,
        None => other,
    }
}

pub(crate) fn digits_in(found: &ArgMatches<'_>) -> Option<Digits> {
    let number: u64 = match found.get_one("decimals") {
        Some(number) => number,
        None => 0,
    };
    Digits::new(number.min(10) as u32)
}

fn is_chosen(found: &ArgMatches<'_>, name: &str, choice: &str) -> bool {
    found.get_str(name) == Some(choice)
}

/// What values mean, if the words say that.
pub(crate) fn meaning_in(found: &ArgMatches<'_>) -> Option<Values> {
    if is_chosen(found, "values", "doubles") {
        Some(Values::Doubles)
    } else {
        None
    }
}

fn policy_in(found: &ArgMatches<'_>) -> Option<Policy> {
    let rest = if is_chosen(found, "rest", "drop") {
        Rest::Drop
    } else if is_chosen(found, "rest", "round") {
        Rest::Round
    } else {
        Rest::Refuse
    };
    let stale = if is_chosen(found, "stale", "refuse") {
        Stale::Refuse
    } else {
        Stale::Drop
    };
    Some(Policy {
        digits: digits_in(found)?,
        rest,
        stale,
    })
}

fn form_in(found: &ArgMatches<'_>) -> Option<Form> {
    match meaning_in(found) {
        Some(Values::Doubles) => Some(Form::Doubles),
        _ => Some(Form::Parts(policy_in(found)?)),
    }
}

pub(crate) fn options_in<'a>(found: &ArgMatches<'a>) -> Option<Options<'a>> {
    Some(Options {
        form: form_in(found)?,
        times: Stretch {
            from: time_in(found, "from", MIN_TIME),
            to: time_in(found, "to", MAX_TIME),
        },
        into: found.get_str("into")?,
    })
}

fn texts_in<'a>(
    alloc: Global,
    found: &ArgMatches<'a>,
    name: &str,
) -> Result<Vec<&'a str>, AllocError> {
    match found.get_strs(name) {
        Some(texts) => Vec::from_slice(alloc, texts),
        None => Ok(Vec::new(alloc)),
    }
}

fn import_in<'a>(alloc: Global, found: &ArgMatches<'a>) -> Result<Option<Line<'a>>, AllocError> {
    let Some(options) = options_in(found) else {
        return Ok(None);
    };
    let blocks = texts_in(alloc, found, "blocks")?;
    Ok(Some(Line::FromPrometheus(options, blocks)))
}

fn rewrite_in<'a>(alloc: Global, found: &ArgMatches<'a>) -> Result<Option<Line<'a>>, AllocError> {
    let Some(into) = found.get_str("into") else {
        return Ok(None);
    };
    let directories = texts_in(alloc, found, "directories")?;
    Ok(Some(Line::Rewrite(into, meaning_in(found), directories)))
}

fn add_in<'a>(alloc: Global, found: &ArgMatches<'a>) -> Result<Option<Line<'a>>, AllocError> {
    let Some(data) = found.get_str("data") else {
        return Ok(None);
    };
    let blocks = texts_in(alloc, found, "blocks")?;
    Ok(Some(Line::Add(data, blocks)))
}

fn line_in<'a>(alloc: Global, found: &ArgMatches<'a>) -> Result<Option<Line<'a>>, AllocError> {
    if let Some(found) = found.subcommand_matches("from-prometheus") {
        return import_in(alloc, found);
    }
    if let Some(found) = found.subcommand_matches("rewrite") {
        return rewrite_in(alloc, found);
    }
    if let Some(found) = found.subcommand_matches("add") {
        return add_in(alloc, found);
    }
    if let Some(found) = found.subcommand_matches("join") {
        return Ok(found.get_str("data").map(Line::Join));
    }
    if let Some(found) = found.subcommand_matches("list") {
        return Ok(Some(Line::List(texts_in(alloc, found, "directories")?)));
    }
    Ok(text_line_in(found))
}

fn no_subcommand(alloc: Global) -> Result<Error, AllocError> {
    blocktool(alloc)?.error(ErrorKind::MissingSubcommand, "a subcommand is missing")
}

/// What the words after the program's name ask for, or what to print in place of it: help, the
/// version, or a fault of the words.
pub(crate) fn read_line<'a>(alloc: Global, words: &'a [String]) -> Result<Line<'a>, Error> {
    let found = blocktool(alloc)?.try_get_matches_from(words)?;
    match line_in(alloc, &found)? {
        Some(line) => Ok(line),
        None => Err(no_subcommand(alloc)?),
    }
}
