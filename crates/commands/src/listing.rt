//! The lines of `journal`.

ghost use Rattle.std.specs.Prelude.{◌≡◌, ◌<◌, ℕ, ℤ, List, ◌++◌, IfOk, IfErr, OnOk, length};
ghost use Rattle.std.specs.Prelude.{string_bytes};
ghost use Rattle.std.specs.Io.KnownBytes.{Appends};
ghost use Rattle.matchers.specs.Grammar.{op_text, written};
ghost use Rattle.commands.specs.Listing.{matcher_text, matchers_text, IsBatchLine, IsEventLine};
ghost use Rattle.commands.specs.Listing.{IsSeriesCount, IsSpan};
ghost use Rattle.commands.specs.Listing.{batch_start, batch_end, batch_line};
ghost use Rattle.commands.specs.Listing.{empty_batch_line, deletion_start};
ghost use Rattle.commands.specs.Listing.{deletion_end, deletion_line, cut_line};
ghost use Rattle.commands.specs.Faults.{read_fault};
ghost use Rattle.commands.specs.Listing.{AreLines, summary_line, IsListed, IsListFault, IsFileAt};
ghost use Rattle.commands.specs.Listing.{head_start, head_end, head_line, saved_samples};
ghost use Rattle.commands.specs.Listing.{IsListing, IsListingFault};
ghost use Rattle.commands.specs.Listing.{IsUnreadFile, IsUnreadJournal};
ghost use Rattle.commands.specs.Reading.{AreFirstBytes};
ghost use Rattle.commands.specs.Selecting.{KeepsAt};

use crate::fault::{Fault, Refusal};
use crate::files::{ReadError, ReadFiles};
use crate::locking::path_in;
use crate::sending::send;
use head::{Event, EventView};
use head_record::HeadRecord;
use labels::{LabelSet, Sample};
use matchers::{Matcher, Op};
use std::alloc::{AllocError, Global};
use std::io::Write;
use store_folder::{
    FoundJournal, ReadError as JournalFault, StartCause, StartError, begins_plain, read_journal,
    read_plain,
};

/// The most bytes of a journal.
const MOST: usize = 1 << 62;

/// The bytes of the file at a path.
fn read_alone<F: ReadFiles>(alloc: Global, files: &F, path: &str) -> Result<Vec<u8>, Fault>
    ensures ok { IfOk result (λ bytes.
        AreFirstBytes (F.may_read files.now) path.now 4611686018427387904 bytes.items) }
    ensures err { IfErr result (λ fault. IsUnreadFile (F.may_read files.now) path.now fault) }
{
    match files.read_file(alloc, path, MOST) {
        Ok(bytes) => Ok(bytes),
        Err(ReadError::Memory) => Err(Fault::Memory),
        Err(ReadError::Unreadable) => Err(Fault::CannotRead(path.to_string(alloc)?)),
    }
}

/// The bytes of the journal that is in a folder, if there is one, or else of the file itself.
fn read_at<F: ReadFiles>(alloc: Global, files: &F, path: &str) -> Result<Vec<u8>, Fault>
    ensures ok { IfOk result (λ bytes. IsFileAt (F.may_read files.now) path.now bytes.items) }
    ensures err { IfErr result (λ fault. IsUnreadJournal (F.may_read files.now) path.now fault) }
{
    let within = path_in(alloc, path, "journal")?;
    match files.read_file(alloc, within.as_str(), MOST) {
        Ok(bytes) => Ok(bytes),
        Err(ReadError::Memory) => Err(Fault::Memory),
        Err(ReadError::Unreadable) => read_alone(alloc, files, path),
    }
}

/// An operator, as selectors write it.
fn op_text(op: Op) -> &'static str
    ensures { result.now ≡ op_text op }
{
    match op {
        Op::Equal => "=",
        Op::NotEqual => "!=",
        Op::Like => "=~",
        Op::NotLike => "!~",
    }
}

/// Appends a text as it is written between quotes.
fn append_written(out: &mut Vec<u8>, text: &str) -> Result<(), AllocError>
    ensures { OnOk result (out.new.items ≡ out.old.items ++ written text.now) }
{
    for byte in text.as_bytes() {
        match *byte {
            b'"' => out.extend_from_slice(b"\\\"")?,
            b'\\' => out.extend_from_slice(b"\\\\")?,
            b'\n' => out.extend_from_slice(b"\\n")?,
            other => out.push(other)?,
        }
    }
    Ok(())
}

/// Appends a matcher as a selector writes it.
fn append_matcher(out: &mut Vec<u8>, matcher: &Matcher) -> Result<(), AllocError>
    ensures { OnOk result (out.new.items ≡ out.old.items ++ matcher_text matcher.now) }
{
    out.extend_from_slice(matcher.name().as_bytes())?;
    out.extend_from_slice(op_text(matcher.op()).as_bytes())?;
    out.push(b'"')?;
    append_written(out, matcher.text())?;
    out.push(b'"')?;
    Ok(())
}

/// Appends matchers as a selector writes them.
fn append_matchers(out: &mut Vec<u8>, matchers: &[Matcher]) -> Result<(), AllocError>
    ensures { OnOk result (out.new.items ≡ out.old.items ++ matchers_text matchers.now) }
{
    out.push(b'{')?;
    let mut is_first = true;
    for matcher in matchers {
        if !is_first {
            out.push(b',')?;
        }
        append_matcher(out, matcher)?;
        is_first = false;
    }
    out.push(b'}')?;
    Ok(())
}

/// How many series the samples are of.
fn series_count(alloc: Global, samples: &[(LabelSet, Sample)]) -> Result<usize, AllocError>
    ensures { IfOk result (IsSeriesCount samples.now) }
{
    let mut all: Vec<&LabelSet> = Vec::with_capacity(alloc, samples.len())?;
    for sample in samples {
        all.push(&sample.0)?;
    }
    all.sort_unstable();
    all.dedup();
    Ok(all.len())
}

/// The least and the greatest time of samples, of which there are some.
fn times_of(samples: &[(LabelSet, Sample)]) -> (i64, i64)
    requires { 0 < length samples.now }
    ensures { IsSpan samples.now result.0 result.1 }
{
    let first = samples[0].1.t();
    let (mut from, mut to) = (first, first);
    for sample in samples {
        let t = sample.1.t();
        from = from.min(t);
        to = to.max(t);
    }
    (from, to)
}

/// From when to when the samples of a batch are, and the end of its line.
fn batch_end(alloc: Global, from: i64, to: i64) -> Result<String, AllocError>
    ensures { IfOk result (λ end. string_bytes end ≡ batch_end from to) }
{
    format!(in alloc; "{from} to {to}\n")
}

/// How many samples of how many series a batch has, and the start of its line.
fn batch_start(
    alloc: Global,
    number: usize,
    count: usize,
    series: usize,
) -> Result<String, AllocError>
    ensures { IfOk result (λ start. string_bytes start ≡ batch_start number count series) }
{
    format!(in alloc; "{number} batch {count} samples of {series} series, ")
}

/// Appends the line of a batch with samples.
fn append_batch_line(
    alloc: Global,
    out: &mut Vec<u8>,
    number: usize,
    samples: &[(LabelSet, Sample)],
) -> Result<(), AllocError>
    requires { 0 < length samples.now }
    ensures { OnOk result ((series : ℕ) × (from : ℤ) × (to : ℤ) × IsSeriesCount samples.now series
        × IsSpan samples.now from to × (out.new.items
        ≡ out.old.items ++ batch_line number (length samples.now) series from to)) }
{
    let series = series_count(alloc, samples)?;
    let (from, to) = times_of(samples);
    let start = batch_start(alloc, number, samples.len(), series)?;
    let end = batch_end(alloc, from, to)?;
    out.extend_from_slice(start.as_bytes())?;
    out.extend_from_slice(end.as_bytes())
}

/// The line of a batch without a sample.
fn empty_batch_line(alloc: Global, number: usize) -> Result<String, AllocError>
    ensures { IfOk result (λ line. string_bytes line ≡ empty_batch_line number) }
{
    format!(in alloc; "{number} batch 0 samples\n")
}

/// Appends the line of a batch.
fn append_batch(
    alloc: Global,
    out: &mut Vec<u8>,
    number: usize,
    samples: &[(LabelSet, Sample)],
) -> Result<(), AllocError>
    ensures { OnOk result ((line : List ℕ) × IsBatchLine number samples.now line
        × (out.new.items ≡ out.old.items ++ line)) }
{
    if samples.is_empty() {
        let line = empty_batch_line(alloc, number)?;
        return out.extend_from_slice(line.as_bytes());
    }
    append_batch_line(alloc, out, number, samples)
}

/// What comes before the matchers in the line of a deletion.
fn deletion_start(alloc: Global, number: usize) -> Result<String, AllocError>
    ensures { IfOk result (λ start. string_bytes start ≡ deletion_start number) }
{
    format!(in alloc; "{number} deletion ")
}

/// What comes behind them.
fn deletion_end(alloc: Global, from: i64, to: i64) -> Result<String, AllocError>
    ensures { IfOk result (λ end. string_bytes end ≡ deletion_end from to) }
{
    format!(in alloc; " {from} to {to}\n")
}

/// Appends the line of a deletion.
fn append_deletion(
    alloc: Global,
    out: &mut Vec<u8>,
    number: usize,
    asked: (&[Matcher], i64, i64),
) -> Result<(), AllocError>
    ensures { OnOk result (out.new.items
        ≡ out.old.items ++ deletion_line number asked.entry.0.now asked.entry.1 asked.entry.2) }
{
    let (matchers, from, to) = asked;
    let start = deletion_start(alloc, number)?;
    let end = deletion_end(alloc, from, to)?;
    out.extend_from_slice(start.as_bytes())?;
    append_matchers(out, matchers)?;
    out.extend_from_slice(end.as_bytes())
}

/// The line of a cut.
fn cut_line(alloc: Global, number: usize, at: i64) -> Result<String, AllocError>
    ensures { IfOk result (λ line. string_bytes line ≡ cut_line number at) }
{
    format!(in alloc; "{number} cut at {at}\n")
}

/// Appends the line of a cut.
fn append_cut(alloc: Global, out: &mut Vec<u8>, number: usize, at: i64) -> Result<(), AllocError>
    ensures { OnOk result (out.new.items ≡ out.old.items ++ cut_line number at) }
{
    let line = cut_line(alloc, number, at)?;
    out.extend_from_slice(line.as_bytes())
}

/// Appends the line of an event, with its number.
fn append_event(
    alloc: Global,
    out: &mut Vec<u8>,
    number: usize,
    event: &Event,
) -> Result<(), AllocError>
    ensures { OnOk result ((line : List ℕ) × IsEventLine number event.now line
        × (out.new.items ≡ out.old.items ++ line)) }
{
    match event.view() {
        EventView::Batch(samples) => append_batch(alloc, out, number, samples),
        EventView::Deletion(matchers, from, to) => {
            append_deletion(alloc, out, number, (matchers, from, to))
        }
        EventView::Cut(at) => append_cut(alloc, out, number, at),
    }
}

/// The lines of events, which are numbered from 1.
fn lines_of(alloc: Global, events: &[Event]) -> Result<Vec<u8>, AllocError>
    ensures { IfOk result (λ lines. AreLines 0 events.now lines.items) }
{
    let mut lines = Vec::new(alloc);
    let mut number = 0;
    for event in events {
        number += 1;
        append_event(alloc, &mut lines, number, event)?;
    }
    Ok(lines)
}

/// The line that sums a journal up: how many events, in how many of its bytes.
fn summary_line(alloc: Global, count: usize, len: usize, size: usize) -> Result<String, AllocError>
    ensures { IfOk result (λ line. string_bytes line ≡ summary_line count len size) }
{
    let torn = size.saturating_sub(len);
    format!(in alloc; "{count} events, {len} bytes, {torn} bytes of a torn record\n")
}

/// How many samples the series of a head have.
fn sample_count(head: &HeadRecord) -> u64
    ensures { result ≡ saved_samples head.now.head }
{
    let mut count = 0u64;
    for series in head.series() {
        count = count.saturating_add(series.samples().len() as u64);
    }
    count
}

/// The floor of a head and how many blocks it names, as the start of its line.
fn head_start(alloc: Global, floor: i64, blocks: usize) -> Result<String, AllocError>
    ensures { IfOk result (λ start. string_bytes start ≡ head_start floor blocks) }
{
    format!(in alloc; "head: floor {floor}, {blocks} blocks, ")
}

/// How many series a head has, and how many samples these series have, as the end of its line.
fn head_end(alloc: Global, series: usize, samples: u64) -> Result<String, AllocError>
    ensures { IfOk result (λ end. string_bytes end ≡ head_end series samples) }
{
    format!(in alloc; "{series} series, {samples} samples\n")
}

/// Appends the line of a head.
fn append_head(alloc: Global, out: &mut Vec<u8>, head: &HeadRecord) -> Result<(), AllocError>
    ensures { OnOk result (out.new.items ≡ out.old.items ++ head_line head.now) }
{
    let start = head_start(alloc, head.floor(), head.places().len())?;
    let end = head_end(alloc, head.series().len(), sample_count(head))?;
    out.extend_from_slice(start.as_bytes())?;
    out.extend_from_slice(end.as_bytes())
}

/// The lines of the events of a journal, and the line that sums it up.
fn append_events(
    alloc: Global,
    text: &mut Vec<u8>,
    found: &FoundJournal,
    size: usize,
) -> Result<(), AllocError>
    ensures { OnOk result ((lines : List ℕ) × AreLines 0 found.now.events.items lines
        × (text.new.items ≡ text.old.items
        ++ (lines ++ summary_line (length found.now.events.items) found.now.len size))) }
{
    let lines = lines_of(alloc, &found.events)?;
    let last = summary_line(alloc, found.events.len(), found.len, size)?;
    text.extend_from_slice(lines.as_slice())?;
    text.extend_from_slice(last.as_bytes())
}

/// The fault that a journal is refused, or that there is no memory.
fn not_read(error: JournalFault) -> Fault
    ensures { result ≡ read_fault error }
{
    let error = StartError::Journal(error);
    match error.cause() {
        StartCause::Refused => Fault::Refused(Refusal::Start(error)),
        StartCause::Memory | StartCause::Folder => Fault::Memory,
    }
}

/// The lines of what the journal of a file holds. A journal of events alone has no line of a head.
fn listing_of(alloc: Global, file: &[u8]) -> Result<Vec<u8>, Fault>
    ensures ok { IfOk result (λ text. IsListing file.now text.items) }
    ensures err { IfErr result (IsListingFault file.now) }
{
    let mut text = Vec::new(alloc);
    if begins_plain(file) {
        let found = read_plain(alloc, file).map_err(not_read)?;
        append_events(alloc, &mut text, &found, file.len())?;
        return Ok(text);
    }
    let found = read_journal(alloc, file).map_err(not_read)?;
    append_head(alloc, &mut text, &found.head)?;
    append_events(alloc, &mut text, &found, file.len())?;
    Ok(text)
}

/// Lists what the journal at a path holds: a line for its head, a line for each event, and one that
/// sums it up. The path is that of the journal, or of the folder that it is in.
pub fn list<F: ReadFiles, W: Write>(
    alloc: Global,
    files: &F,
    path: &str,
    out: &mut W,
) -> Result<(), Fault>
    ensures ok { OnOk result (IsListed (F.may_read files.now) path.now
        (W.contents out.old) (W.contents out.new)) }
    ensures err { IfErr result (λ fault. IsListFault (F.may_read files.now) path.now fault) }
    ensures kept { IfErr result (λ fault. KeepsAt fault (W.contents out.old) (W.contents out.new)) }
{
    let bytes = read_at(alloc, files, path)?;
    let text = listing_of(alloc, bytes.as_slice())?;
    send(out, text.as_slice())?;
    Ok(())
}
