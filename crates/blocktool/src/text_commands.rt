//! The words of the commands that read and write text.

use crate::command::{Line, digits_in, meaning_in, options_in};
use crate::from_openmetrics::TextIn;
use crate::target::Target;
use crate::to_openmetrics::{ReplyIn, Shown};
use crate::words::{DECIMALS, FROM, INTO, Kind, REST, STALE, TO, VALUES, Word, command_of};
use block_folder::Values;
use clap::{ArgMatches, Command};
use open_metrics::Format;
use std::alloc::{AllocError, Global};

const ABOUT_FROM: &str =
    "FILE, or standard input, is OpenMetrics text, whose times are in seconds and which ends with
`# EOF`, or with --format prometheus the older text of Prometheus, whose times are in milliseconds.
Each sample needs a time. Of two samples of one series at one time that of the later line is kept.
Exemplars are left; no text has stale markers. The text and its rows are in memory at once.

The outputs, the values and the last line are those of `blocktool from-prometheus`; values are read
as the text writes them, with no double between. With --values doubles each value is the double
nearest to the number that the text writes.

The first line that is wrong is refused, with its code, a sentence, line and column:
  P1 to P12 the line, or the end of the text
  L1 to L3  its labels

docs/FORMATS.md of the project explains each code.

Exit status: 0 done; 1 refused, with the place on standard error; 2 a fault of the words; 3 cannot
read or write; 4 no memory

Example: blocktool from-openmetrics --values doubles --into mine backfill.om";

const ABOUT_ROWS: &str =
    "FILE, or standard input, is a reply as `querier select` prints it, of which the merged rows
are taken, or a list of rows, as the body of `POST /write`. Of two samples of one series at one time
the later is kept. Values are taken as they stand: in parts of which 10^N make one, or, with --values
doubles, as the numbers that stand for doubles. All rows are in memory at once.

The outputs and the last line are those of `blocktool from-prometheus`.

Exit status: 0 done; 1 refused: no rows; 2 a fault of the words; 3 cannot read or write; 4 no
memory

Example: blocktool from-rows --into mine rows.json";

const ABOUT_TO: &str =
    "FILE, or standard input, is a reply as `querier select` prints it. Its merged rows are written
as OpenMetrics text, which `promtool tsdb create-blocks-from openmetrics` reads: a line for each
sample, its time in seconds, its value a decimal with N digits after the point. Give the N with
which the blocks were made, or --values doubles: then values are written as Prometheus prints them.

Exit status: 0 done; 1 refused: no reply, or a series without the name of a metric; 2 a fault of the
words; 3 cannot read or write; 4 no memory

Example: querier select 'up' mine/* | blocktool to-openmetrics --decimals 3 >up.om";

const TEXT: [Word<'static>; 9] = [
    VALUES,
    DECIMALS,
    REST,
    STALE,
    FROM,
    TO,
    INTO,
    Word {
        name: "format",
        value: "FORMAT",
        help: "The format of the text [default: openmetrics]",
        kind: Kind::Format,
    },
    Word {
        name: "file",
        value: "FILE",
        help: "A file with text [default: standard input]",
        kind: Kind::One,
    },
];

const ROWS: [Word<'static>; 4] = [
    VALUES,
    DECIMALS,
    INTO,
    Word {
        name: "file",
        value: "FILE",
        help: "A file with rows [default: standard input]",
        kind: Kind::One,
    },
];

const REPLY: [Word<'static>; 3] = [
    VALUES,
    DECIMALS,
    Word {
        name: "file",
        value: "FILE",
        help: "A file with a reply [default: standard input]",
        kind: Kind::One,
    },
];

fn format_in(found: &ArgMatches<'_>) -> Format {
    if found.get_str("format") == Some("prometheus") {
        Format::Prometheus
    } else {
        Format::OpenMetrics
    }
}

pub(crate) fn from_openmetrics<'a>(alloc: Global) -> Result<Command<'a>, AllocError> {
    let about = "Makes blocks out of OpenMetrics text";
    command_of(
        alloc,
        "from-openmetrics",
        (about, ABOUT_FROM),
        TEXT.as_slice(),
    )
}

pub(crate) fn from_rows<'a>(alloc: Global) -> Result<Command<'a>, AllocError> {
    let about = "Makes blocks out of the rows of a reply or of a write";
    command_of(alloc, "from-rows", (about, ABOUT_ROWS), ROWS.as_slice())
}

pub(crate) fn to_openmetrics<'a>(alloc: Global) -> Result<Command<'a>, AllocError> {
    let about = "Writes the rows of a reply as OpenMetrics text";
    command_of(alloc, "to-openmetrics", (about, ABOUT_TO), REPLY.as_slice())
}

fn text_in<'a>(found: &ArgMatches<'a>) -> Option<Line<'a>> {
    let Some(options) = options_in(found) else {
        return None;
    };
    let text = TextIn {
        format: format_in(found),
        file: found.get_str("file"),
    };
    Some(Line::FromOpenMetrics(options, text))
}

fn rows_in<'a>(found: &ArgMatches<'a>) -> Option<Line<'a>> {
    let target = Target {
        into: found.get_str("into")?,
        digits: digits_in(found)?.number(),
        values: meaning_in(found).unwrap_or(Values::Whole),
    };
    Some(Line::FromRows(target, found.get_str("file")))
}

fn shown_in(found: &ArgMatches<'_>) -> Option<Shown> {
    match meaning_in(found) {
        Some(Values::Doubles) => Some(Shown::Doubles),
        _ => Some(Shown::Decimals(digits_in(found)?)),
    }
}

fn reply_in<'a>(found: &ArgMatches<'a>) -> Option<Line<'a>> {
    let reply = ReplyIn {
        shown: shown_in(found)?,
        file: found.get_str("file"),
    };
    Some(Line::ToOpenMetrics(reply))
}

/// What the words of such a command ask for.
pub(crate) fn text_line_in<'a>(found: &ArgMatches<'a>) -> Option<Line<'a>> {
    if let Some(found) = found.subcommand_matches("from-openmetrics") {
        return text_in(found);
    }
    if let Some(found) = found.subcommand_matches("from-rows") {
        return rows_in(found);
    }
    let found = found.subcommand_matches("to-openmetrics")?;
    reply_in(found)
}
