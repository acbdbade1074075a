//! A reply in its usual spelling, read straight from its tokens: members in the order in which the
//! store prints them, times and values that are integers, labels in the order of their names. It
//! needs no tree of JSON values. Of a reply that is spelled in another way nothing is said here.

ghost use Rattle.std.specs.Prelude.{◌≡◌, ◌<◌, ◌==◌, ◌∷◌, Some, true, false, length, slice_index};
ghost use Rattle.std.specs.Prelude.{option_and_then, map, IfOk, IfSome, OnOk, IsTrue, codes};
ghost use Rattle.std.specs.Ordering.{nat_cmp};
ghost use Rattle.std.specs.declared.cmp.Ordering.TheVariants.{Greater};
ghost use Rattle.std.specs.Cmp.Lexicographic.{slice_cmp};
ghost use Rattle.json.specs.Token as token;
ghost use Rattle.labels.specs.Pairs.{texts_of};
ghost use Rattle.serde_json.specs.Find.{as_i64, as_u64};
ghost use Rattle.serde_json.specs.Read.{number_from, number_of};
ghost use Rattle.reply_reader.specs.Replies.{integer_said, natural_said};
ghost use Rattle.reply_reader.specs.Replies.{reference_said, sample_said};
ghost use Rattle.reply_reader.specs.Replies.{list_said, labels_said, row_said, verdict_said};
ghost use Rattle.reply_reader.specs.Replies.{interval_said, part_name_said, part_said, reply_said};
ghost use Rattle.reply_reader.specs.Replies.{text_said, told_of_part, told_of};
ghost use Rattle.reply_reader.specs.Usual.{Comes, pairs_said};

use crate::reading::{are_labels, name_of, number_of, verdict_named};
use crate::reply::{Reply, ToldPart};
use cover::{Interval, PartAnswer, PartCover, Verdict};
use fast_float::Numeral;
use json::{Invalid, Reader, Scratch, Token};
use labels::{LabelSet, Row, Sample, SeriesRef};
use postings::PartName;
use std::alloc::{AllocError, AllocFailed, Global};
use std::cmp::Ordering;

/// Why nothing was read.
#[derive(Clone, Copy, Debug, PartialEq, Eq, Drop)]
enum Stop {
    /// The reply is spelled in another way, or is no reply.
    Unusual,
    /// There is no memory left.
    Memory,
}

impl From<AllocError> for Stop {
    fn from(_: AllocError) -> Stop {
        Stop::Memory
    }
}

impl<T: Drop> From<AllocFailed<T>> for Stop {
    fn from(_: AllocFailed<T>) -> Stop {
        Stop::Memory
    }
}

impl From<Invalid> for Stop {
    fn from(_: Invalid) -> Stop {
        Stop::Unusual
    }
}

fn begin_array(reader: &mut Reader<'_>) -> Result<(), Stop>
    ensures { OnOk result (reader.old ≡ token.begin_array ∷ reader.new) }
{
    match reader.next() {
        Some(Token::BeginArray) => Ok(()),
        _ => Err(Stop::Unusual),
    }
}

fn end_array(reader: &mut Reader<'_>) -> Result<(), Stop>
    ensures { OnOk result (reader.old ≡ token.end_array ∷ reader.new) }
{
    match reader.next() {
        Some(Token::EndArray) => Ok(()),
        _ => Err(Stop::Unusual),
    }
}

fn begin_object(reader: &mut Reader<'_>) -> Result<(), Stop>
    ensures { OnOk result (reader.old ≡ token.begin_object ∷ reader.new) }
{
    match reader.next() {
        Some(Token::BeginObject) => Ok(()),
        _ => Err(Stop::Unusual),
    }
}

fn end_object(reader: &mut Reader<'_>) -> Result<(), Stop>
    ensures { OnOk result (reader.old ≡ token.end_object ∷ reader.new) }
{
    match reader.next() {
        Some(Token::EndObject) => Ok(()),
        _ => Err(Stop::Unusual),
    }
}

fn key(reader: &mut Reader<'_>, name: &str) -> Result<(), Stop>
    ensures { OnOk result (reader.old ≡ token.key name.now ∷ reader.new) }
{
    match reader.next() {
        Some(Token::Key(found)) if found == name => Ok(()),
        _ => Err(Stop::Unusual),
    }
}

fn text<'t>(reader: &mut Reader<'t>) -> Result<&'t str, Stop>
    ensures { IfOk result (λ text. reader.old ≡ token.string text.now ∷ reader.new) }
{
    match reader.next() {
        Some(Token::String(text)) => Ok(text),
        _ => Err(Stop::Unusual),
    }
}

fn number<'t>(reader: &mut Reader<'t>) -> Result<&'t str, Stop>
    ensures { IfOk result (λ text. reader.old ≡ token.number text.now ∷ reader.new) }
{
    match reader.next() {
        Some(Token::Number(text)) => Ok(text),
        _ => Err(Stop::Unusual),
    }
}

fn yes(reader: &mut Reader<'_>) -> Result<(), Stop>
    ensures { OnOk result (reader.old ≡ token.boolean true ∷ reader.new) }
{
    match reader.next() {
        Some(Token::Bool(true)) => Ok(()),
        _ => Err(Stop::Unusual),
    }
}

/// The integer that digits write, up to 2^63 - 1.
fn positive(digits: &[u8]) -> Option<i64>
    ensures { IfSome result (λ z. option_and_then as_i64 (number_of digits.now) ≡ Some z) }
{
    let number = number_of(digits)?;
    match i64::try_from(number) {
        Ok(value) => Some(value),
        Err(_) => None,
    }
}

/// The integer below 0 of a numeral after a minus: `-0` is none.
fn negative(numeral: &Numeral<'_>) -> Option<i64>
    ensures { IfSome result (λ z. option_and_then as_i64 (number_from true numeral.now) ≡ Some z) }
{
    let value = numeral.to_i64(true)?;
    if value < 0 { Some(value) } else { None }
}

fn has_minus(bytes: &[u8]) -> bool
    ensures value { result ≡ (slice_index bytes.now 0 == 45) }
    ensures len { IsTrue result → 0 < length bytes.now }
{
    !bytes.is_empty() && bytes[0] == b'-'
}

/// The integer that the text of a number is, from -2^63 to 2^63 - 1.
fn integer_of(text: &str) -> Option<i64>
    ensures { IfSome result (λ z. option_and_then as_i64 (number_of text.now) ≡ Some z) }
{
    let bytes = text.as_bytes();
    if has_minus(bytes) {
        negative(&Numeral::scan(&bytes[1..]))
    } else {
        positive(bytes)
    }
}

/// The integer that digits write, up to 2^64 - 1.
fn natural_of(text: &str) -> Option<u64>
    ensures { IfSome result (λ n. option_and_then as_u64 (number_of text.now) ≡ Some n) }
{
    let number = number_of(text.as_bytes())?;
    Some(number as u64)
}

fn integer(reader: &mut Reader<'_>) -> Result<i64, Stop>
    ensures { IfOk result (λ z. Comes integer_said 0 reader.old z reader.new) }
{
    match integer_of(number(reader)?) {
        Some(value) => Ok(value),
        None => Err(Stop::Unusual),
    }
}

fn natural(reader: &mut Reader<'_>) -> Result<u64, Stop>
    ensures { IfOk result (λ n. Comes natural_said 0 reader.old n reader.new) }
{
    match natural_of(number(reader)?) {
        Some(value) => Ok(value),
        None => Err(Stop::Unusual),
    }
}

fn reference(reader: &mut Reader<'_>) -> Result<SeriesRef, Stop>
    ensures { IfOk result (λ r. Comes reference_said 0 reader.old r reader.new) }
{
    match u32::try_from(natural(reader)?) {
        Ok(number) => Ok(SeriesRef::new(number)),
        Err(_) => Err(Stop::Unusual),
    }
}

fn sample(reader: &mut Reader<'_>) -> Result<Sample, Stop>
    ensures { IfOk result (λ s. Comes sample_said 1 reader.old s reader.new) }
{
    begin_array(reader)?;
    let t = integer(reader)?;
    let v = integer(reader)?;
    end_array(reader)?;
    Ok(Sample::new(t, v))
}

fn samples(alloc: Global, reader: &mut Reader<'_>) -> Result<Vec<Sample>, Stop>
    ensures { IfOk result
        (λ v. Comes (list_said sample_said) 2 reader.old v.items reader.new) }
{
    begin_array(reader)?;
    let mut samples = Vec::new(alloc);
    'samples: while !reader.take_end_array() {
        samples.push(sample(reader)?)?;
    }
    Ok(samples)
}

/// Whether a name is behind the one before it.
fn follows(last: &str, name: &str) -> bool
    ensures { IsTrue result → slice_cmp nat_cmp name.now last.now ≡ Greater }
{
    name.cmp(last) == Ordering::Greater
}

/// The members of an object, each a text, in the strict order of their names.
fn pairs<'t>(alloc: Global, reader: &mut Reader<'t>) -> Result<Vec<(&'t str, &'t str)>, Stop>
    ensures { IfOk result
        (λ v. Comes pairs_said 1 reader.old (texts_of v.items) reader.new) }
{
    begin_object(reader)?;
    let mut pairs = Vec::new(alloc);
    let mut last = "";
    'pairs: while let Some(name) = reader.next_key()? {
        let value = text(reader)?;
        if !follows(last, name) {
            return Err(Stop::Unusual);
        }
        pairs.push((name, value))?;
        last = name;
    }
    Ok(pairs)
}

fn label_set(alloc: Global, reader: &mut Reader<'_>) -> Result<LabelSet, Stop>
    ensures { IfOk result (λ labels. Comes labels_said 1 reader.old labels reader.new) }
{
    let pairs = pairs(alloc, reader)?;
    if !are_labels(pairs.as_slice()) {
        return Err(Stop::Unusual);
    }
    Ok(LabelSet::of_sorted_texts(alloc, pairs.as_slice())?)
}

fn row(alloc: Global, reader: &mut Reader<'_>) -> Result<Row, Stop>
    ensures { IfOk result (λ row. Comes row_said 3 reader.old row reader.new) }
{
    begin_object(reader)?;
    key(reader, "labels")?;
    let labels = label_set(alloc, reader)?;
    key(reader, "samples")?;
    let samples = samples(alloc, reader)?;
    end_object(reader)?;
    Ok(Row::new(labels, samples))
}

fn rows(alloc: Global, reader: &mut Reader<'_>) -> Result<Vec<Row>, Stop>
    ensures { IfOk result
        (λ rows. Comes (list_said row_said) 4 reader.old rows.items reader.new) }
{
    begin_array(reader)?;
    let mut rows = Vec::new(alloc);
    'rows: while !reader.take_end_array() {
        rows.push(row(alloc, reader)?)?;
    }
    Ok(rows)
}

fn verdict(reader: &mut Reader<'_>) -> Result<Verdict, Stop>
    ensures { IfOk result (λ verdict. Comes verdict_said 0 reader.old verdict reader.new) }
{
    match reader.next() {
        Some(Token::String(text)) => match verdict_named(text) {
            Some(verdict) => Ok(verdict),
            None => Err(Stop::Unusual),
        },
        Some(Token::Number(text)) => match natural_of(text) {
            Some(number) => Ok(Verdict::Rejected(number as usize)),
            None => Err(Stop::Unusual),
        },
        _ => Err(Stop::Unusual),
    }
}

fn interval(reader: &mut Reader<'_>) -> Result<Interval, Stop>
    ensures { IfOk result (λ i. Comes interval_said 1 reader.old i reader.new) }
{
    begin_object(reader)?;
    key(reader, "from")?;
    let from = reference(reader)?;
    key(reader, "until")?;
    let until = natural(reader)?;
    key(reader, "verdict")?;
    let verdict = verdict(reader)?;
    end_object(reader)?;
    Ok(Interval {
        from,
        until,
        verdict,
    })
}

fn intervals(alloc: Global, reader: &mut Reader<'_>) -> Result<Vec<Interval>, Stop>
    ensures { IfOk result
        (λ v. Comes (list_said interval_said) 2 reader.old v.items reader.new) }
{
    begin_array(reader)?;
    let mut intervals = Vec::new(alloc);
    'intervals: while !reader.take_end_array() {
        intervals.push(interval(reader)?)?;
    }
    Ok(intervals)
}

fn references(alloc: Global, reader: &mut Reader<'_>) -> Result<Vec<SeriesRef>, Stop>
    ensures { IfOk result
        (λ v. Comes (list_said reference_said) 1 reader.old v.items reader.new) }
{
    begin_array(reader)?;
    let mut references = Vec::new(alloc);
    'references: while !reader.take_end_array() {
        references.push(reference(reader)?)?;
    }
    Ok(references)
}

fn part_name(reader: &mut Reader<'_>) -> Result<PartName, Stop>
    ensures { IfOk result (λ name. Comes part_name_said 0 reader.old name reader.new) }
{
    match name_of(text(reader)?) {
        Some(name) => Ok(name),
        None => Err(Stop::Unusual),
    }
}

/// What is said of a part that was searched, after the name of its first member.
fn searched(alloc: Global, reader: &mut Reader<'_>) -> Result<ToldPart, Stop>
    ensures { let old = token.begin_object ∷ token.key (codes "intervals") ∷ reader.old in
        IfOk result (λ part. Comes part_said 5 old (told_of_part part) reader.new) }
{
    let certificate = intervals(alloc, reader)?;
    key(reader, "part")?;
    let part = part_name(reader)?;
    key(reader, "rows")?;
    let rows = rows(alloc, reader)?;
    key(reader, "separators")?;
    let separators = references(alloc, reader)?;
    end_object(reader)?;
    let cover = PartCover {
        certificate,
        separators,
        moves: 0,
    };
    Ok(ToldPart::Searched(PartAnswer { part, rows, cover }))
}

/// What is said of a block that was skipped, after the name of the first member.
fn skipped(reader: &mut Reader<'_>) -> Result<ToldPart, Stop>
    ensures { let old = token.begin_object ∷ token.key (codes "part") ∷ reader.old in
        IfOk result (λ part. Comes part_said 5 old (told_of_part part) reader.new) }
{
    let name = part_name(reader)?;
    key(reader, "skipped")?;
    yes(reader)?;
    end_object(reader)?;
    match name {
        PartName::Block(number) => Ok(ToldPart::Skipped(number)),
        PartName::Head => Err(Stop::Unusual),
    }
}

fn part(alloc: Global, reader: &mut Reader<'_>) -> Result<ToldPart, Stop>
    ensures { IfOk result
        (λ part. Comes part_said 5 reader.old (told_of_part part) reader.new) }
{
    begin_object(reader)?;
    match reader.next() {
        Some(Token::Key("intervals")) => searched(alloc, reader),
        Some(Token::Key("part")) => skipped(reader),
        _ => Err(Stop::Unusual),
    }
}

fn parts(alloc: Global, reader: &mut Reader<'_>) -> Result<Vec<ToldPart>, Stop>
    ensures { IfOk result (λ parts. Comes (list_said part_said) 6 reader.old
        (map told_of_part parts.items) reader.new) }
{
    begin_array(reader)?;
    let mut parts = Vec::new(alloc);
    'parts: while !reader.take_end_array() {
        parts.push(part(alloc, reader)?)?;
    }
    Ok(parts)
}

fn reply(alloc: Global, reader: &mut Reader<'_>) -> Result<Reply, Stop>
    ensures { IfOk result (λ reply. Comes reply_said 7 reader.old (told_of reply) reader.new) }
{
    begin_object(reader)?;
    key(reader, "parts")?;
    let parts = parts(alloc, reader)?;
    key(reader, "rows")?;
    let rows = rows(alloc, reader)?;
    end_object(reader)?;
    Ok(Reply { parts, rows })
}

fn reply_of_text(alloc: Global, text: &str) -> Result<Reply, Stop>
    ensures { IfOk result (λ reply. text_said text.now ≡ Some (told_of reply)) }
{
    let mut scratch = Scratch::new(alloc);
    let mut reader = Reader::new(text, &mut scratch)?;
    let reply = reply(alloc, &mut reader)?;
    match reader.next() {
        None => Ok(reply),
        Some(_) => Err(Stop::Unusual),
    }
}

/// The reply that a text is, where it is spelled as usual; nothing is said of another text.
pub(crate) fn usual_reply(alloc: Global, text: &[u8]) -> Result<Option<Reply>, AllocError>
    ensures { IfOk result (λ o. IfSome o (λ reply. text_said text.now ≡ Some (told_of reply))) }
{
    let Ok(text) = simdutf8::compat::from_utf8(text) else {
        return Ok(None);
    };
    match reply_of_text(alloc, text) {
        Ok(reply) => Ok(Some(reply)),
        Err(Stop::Unusual) => Ok(None),
        Err(Stop::Memory) => Err(AllocError),
    }
}
