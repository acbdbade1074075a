//! The words of a command, as a table.

use clap::builder::ValueParser;
use clap::{Arg, Command, value_parser};
use std::alloc::{AllocError, Global};

const RESTS: [&str; 3] = ["refuse", "drop", "round"];

const STALES: [&str; 2] = ["refuse", "drop"];

const FORMATS: [&str; 2] = ["openmetrics", "prometheus"];

const MEANINGS: [&str; 1] = ["doubles"];

/// The options of values that are whole numbers of parts.
const OF_PARTS: [&str; 3] = ["decimals", "rest", "stale"];

/// Which values a word takes.
#[derive(Clone, Copy, Drop)]
pub(crate) enum Kind {
    /// An option with any text, which must be given.
    Needed,
    /// An option with a number of digits, 0 to 9.
    Digits,
    /// An option with a time: a signed number of 64 bits.
    Time,
    /// An option with one of [`RESTS`].
    Rest,
    /// An option with one of [`STALES`].
    Stale,
    /// An option with one of [`FORMATS`].
    Format,
    /// An option with one of [`MEANINGS`], and without [`OF_PARTS`].
    Values,
    /// Texts without an option, at least one.
    Many,
    /// A text without an option, which must be given.
    Sole,
    /// A text without an option, which may be left out.
    One,
}

/// An option `--NAME VALUE`, or a text that is written without an option.
#[derive(Clone, Copy, Drop)]
pub(crate) struct Word<'a> {
    pub(crate) name: &'a str,
    pub(crate) value: &'a str,
    pub(crate) help: &'a str,
    pub(crate) kind: Kind,
}

fn option<'a>(alloc: Global, word: Word<'a>) -> Arg<'a> {
    Arg::new(alloc, word.name)
        .long(word.name)
        .value_name(word.value)
        .help(word.help)
}

fn choice<'a>(alloc: Global, word: Word<'a>, texts: &'a [&'a str]) -> Arg<'a> {
    option(alloc, word).value_parser(ValueParser::from(texts))
}

fn positional<'a>(alloc: Global, word: Word<'a>) -> Arg<'a> {
    Arg::new(alloc, word.name)
        .value_name(word.value)
        .help(word.help)
}

/// An option that says what values mean.
fn meaning<'a>(alloc: Global, word: Word<'a>) -> Result<Arg<'a>, AllocError> {
    choice(alloc, word, MEANINGS.as_slice()).conflicts_with_all(OF_PARTS.as_slice())
}

fn arg_of<'a>(alloc: Global, word: Word<'a>) -> Result<Arg<'a>, AllocError> {
    Ok(match word.kind {
        Kind::Needed => option(alloc, word).required(true),
        Kind::Digits => option(alloc, word).value_parser(ValueParser::unsigned(0, 9)),
        Kind::Time => option(alloc, word).value_parser(value_parser!(i64)),
        Kind::Rest => choice(alloc, word, RESTS.as_slice()),
        Kind::Stale => choice(alloc, word, STALES.as_slice()),
        Kind::Format => choice(alloc, word, FORMATS.as_slice()),
        Kind::Values => meaning(alloc, word)?,
        Kind::Many => positional(alloc, word).num_args(1..).required(true),
        Kind::Sole => positional(alloc, word).required(true),
        Kind::One => positional(alloc, word),
    })
}

/// A command with these words, in this order.
pub(crate) fn with_words<'a>(
    alloc: Global,
    command: Command<'a>,
    words: &[Word<'a>],
) -> Result<Command<'a>, AllocError> {
    let mut command = command;
    for word in words {
        command = command.arg(arg_of(alloc, *word)?)?;
    }
    Ok(command)
}

/// A command with this name, what its help says before and after its words, and these words.
pub(crate) fn command_of<'a>(
    alloc: Global,
    name: &'a str,
    texts: (&'a str, &'a str),
    words: &[Word<'a>],
) -> Result<Command<'a>, AllocError> {
    let (about, after) = texts;
    let command = Command::new(alloc, name).about(about).after_help(after);
    with_words(alloc, command, words)
}

pub(crate) const DECIMALS: Word<'static> = Word {
    name: "decimals",
    value: "N",
    help: "How many digits after the point are kept, 0 to 9 [default: 0]",
    kind: Kind::Digits,
};

pub(crate) const REST: Word<'static> = Word {
    name: "rest",
    value: "WHAT",
    help: "What is done with values that need more digits, NaN and infinities [default: refuse]",
    kind: Kind::Rest,
};

pub(crate) const STALE: Word<'static> = Word {
    name: "stale",
    value: "WHAT",
    help: "What is done with stale markers [default: drop]",
    kind: Kind::Stale,
};

pub(crate) const VALUES: Word<'static> = Word {
    name: "values",
    value: "WHAT",
    help: "What values are, if not whole numbers of parts",
    kind: Kind::Values,
};

pub(crate) const FROM: Word<'static> = Word {
    name: "from",
    value: "T",
    help: "The first time that is kept, in milliseconds [default: -2^62]",
    kind: Kind::Time,
};

pub(crate) const TO: Word<'static> = Word {
    name: "to",
    value: "T",
    help: "The last time that is kept, in milliseconds [default: 2^62 - 1]",
    kind: Kind::Time,
};

pub(crate) const INTO: Word<'static> = Word {
    name: "into",
    value: "OUT",
    help: "The directory for the outputs: empty, or not there",
    kind: Kind::Needed,
};
