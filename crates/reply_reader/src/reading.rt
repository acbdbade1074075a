//! What the text of a reply says.

ghost use Rattle.std.specs.Prelude.{◌≡◌, ◌<◌, ℕ, List, Some, option_map, map, codes};
ghost use Rattle.std.specs.List.{list_all};
ghost use Rattle.std.specs.Ordering.{is_lt};
ghost use Rattle.std.specs.FinMap.Entries.{is_sorted};
ghost use Rattle.labels.specs.Labels.{text_cmp};
ghost use Rattle.labels.specs.LabelSets.{are_named, has_value};
ghost use Rattle.serde_json.specs.View.{view, items_view, members_view};
ghost use Rattle.serde_json.specs.Find.{get, as_array};
ghost use Rattle.labels.specs.Pairs.{texts_of};
ghost use Rattle.postings.specs.declared.part_name.PartName.TheVariants.{Block};
ghost use Rattle.reply_reader.specs.Replies.{name_text};
ghost use Rattle.reply_reader.specs.Read.{ReadsAs};
ghost use Rattle.reply_reader.specs.Replies.{has_members, has_items, reference_said, sample_said};
ghost use Rattle.reply_reader.specs.Replies.{list_said, said_at, are_labels};
ghost use Rattle.reply_reader.specs.Replies.{texts_said, labels_said};
ghost use Rattle.reply_reader.specs.Replies.{row_said, verdict_named, verdict_said, interval_said};
ghost use Rattle.reply_reader.specs.Replies.{is_padded, digits_from, number_said, after, name_said};
ghost use Rattle.reply_reader.specs.Replies.{part_name_said, skipped_said};
ghost use Rattle.reply_reader.specs.Replies.{searched_said, part_said};
ghost use Rattle.reply_reader.specs.Replies.{reply_said, tree_of, text_said, told_of_answer};
ghost use Rattle.reply_reader.specs.Replies.{told_of_part, told_of};

use crate::reply::{Reply, ReplyError, ToldPart};
use crate::usual::usual_reply;
use cover::{Interval, PartAnswer, PartCover, Verdict};
use labels::{LabelSet, Row, Sample, SeriesRef, is_name};
use postings::PartName;
use serde_json::{Map, Value};
use std::alloc::Global;

/// Whether a value is an object of so many members.
fn has_members(value: &Value, count: usize) -> bool
    ensures { result ≡ has_members count (view value.now) }
{
    match value.as_object() {
        Some(members) => members.len() == count,
        None => false,
    }
}

/// Whether a value is a list of so many items.
fn has_items(value: &Value, count: usize) -> bool
    ensures { result ≡ has_items count (view value.now) }
{
    match value.as_array() {
        Some(items) => items.len() == count,
        None => false,
    }
}

/// The member of a name.
fn member<'a>(value: &'a Value, name: &str) -> Result<&'a Value, ReplyError>
    ensures { ReadsAs (λ v. view v.now) result (get name.now (view value.now)) }
{
    value.get(name).ok_or(ReplyError::BadReply)
}

/// The items of a list.
fn items_of(value: &Value) -> Result<&[Value], ReplyError>
    ensures { ReadsAs (λ v. items_view v.now) result (as_array (view value.now)) }
{
    match value.as_array() {
        Some(items) => Ok(items.as_slice()),
        None => Err(ReplyError::BadReply),
    }
}

fn reference_of(value: &Value) -> Option<SeriesRef>
    ensures { result ≡ reference_said (view value.now) }
{
    let number = u32::try_from(value.as_u64()?).ok()?;
    Some(SeriesRef::new(number))
}

fn sample_of(value: &Value) -> Option<Sample>
    ensures { result ≡ sample_said (view value.now) }
{
    if !has_items(value, 2) {
        return None;
    }
    let t = value.get(0)?.as_i64()?;
    let v = value.get(1)?.as_i64()?;
    Some(Sample::new(t, v))
}

pub(crate) fn verdict_named(text: &str) -> Option<Verdict>
    ensures { result ≡ verdict_named text.now }
{
    if text == "match" {
        Some(Verdict::Match)
    } else if text == "none" {
        Some(Verdict::NoSample)
    } else {
        None
    }
}

fn verdict_of(value: &Value) -> Option<Verdict>
    ensures { result ≡ verdict_said (view value.now) }
{
    match value.as_str() {
        Some(text) => verdict_named(text),
        None => Some(Verdict::Rejected(value.as_u64()? as usize)),
    }
}

fn interval_of(value: &Value) -> Option<Interval>
    ensures { result ≡ interval_said (view value.now) }
{
    if !has_members(value, 3) {
        return None;
    }
    let from = reference_of(value.get("from")?)?;
    let until = value.get("until")?.as_u64()?;
    let verdict = verdict_of(value.get("verdict")?)?;
    Some(Interval {
        from,
        until,
        verdict,
    })
}

/// Whether there is no digit, or a 0 before another.
fn is_padded(digits: &[u8]) -> bool
    ensures { result ≡ is_padded digits.now }
{
    match digits.split_first() {
        Some((first, rest)) => *first == b'0' && !rest.is_empty(),
        None => true,
    }
}

/// The number that digits write.
fn number_by_digits(digits: &[u8]) -> Option<usize>
    ensures { result ≡ digits_from 0 digits.now }
{
    let mut number: usize = 0;
    for digit in digits {
        if !digit.is_ascii_digit() {
            return None;
        }
        let place = usize::from(*digit - b'0');
        number = number.checked_mul(10)?.checked_add(place)?;
    }
    Some(number)
}

pub(crate) fn number_of(digits: &[u8]) -> Option<usize>
    ensures { result ≡ number_said digits.now }
{
    if is_padded(digits) {
        return None;
    }
    number_by_digits(digits)
}

fn number_after_block(name: &[u8]) -> Option<&[u8]>
    ensures { option_map (λ digits. digits.now) result ≡ after (codes "block ") name.now }
{
    name.strip_prefix(b"block ")
}

pub(crate) fn name_of(name: &str) -> Option<PartName>
    ensures { result ≡ name_said name.now }
{
    if name == "head" {
        return Some(PartName::Head);
    }
    let number = number_of(number_after_block(name.as_bytes())?)?;
    Some(PartName::Block(number))
}

fn part_name_of(value: &Value) -> Option<PartName>
    ensures { result ≡ part_name_said (view value.now) }
{
    name_of(value.as_str()?)
}

/// The number of a block that was skipped.
fn skipped_of(value: &Value) -> Option<usize>
    ensures { result ≡ skipped_said (view value.now) }
{
    if !value.get("skipped")?.as_bool()? {
        return None;
    }
    match part_name_of(value.get("part")?)? {
        PartName::Block(number) => Some(number),
        PartName::Head => None,
    }
}

fn samples_of(alloc: Global, value: &Value) -> Result<Vec<Sample>, ReplyError>
    ensures { ReadsAs (λ v. v.items) result (list_said sample_said (view value.now)) }
{
    let items = items_of(value)?;
    let mut samples = Vec::with_capacity(alloc, items.len())?;
    for item in items {
        let Some(sample) = sample_of(item) else {
            return Err(ReplyError::BadReply);
        };
        samples.push(sample)?;
    }
    Ok(samples)
}

fn intervals_of(alloc: Global, value: &Value) -> Result<Vec<Interval>, ReplyError>
    ensures { ReadsAs (λ v. v.items) result (list_said interval_said (view value.now)) }
{
    let items = items_of(value)?;
    let mut intervals = Vec::with_capacity(alloc, items.len())?;
    for item in items {
        let Some(interval) = interval_of(item) else {
            return Err(ReplyError::BadReply);
        };
        intervals.push(interval)?;
    }
    Ok(intervals)
}

fn references_of(alloc: Global, value: &Value) -> Result<Vec<SeriesRef>, ReplyError>
    ensures { ReadsAs (λ v. v.items) result (list_said reference_said (view value.now)) }
{
    let items = items_of(value)?;
    let mut references = Vec::with_capacity(alloc, items.len())?;
    for item in items {
        let Some(reference) = reference_of(item) else {
            return Err(ReplyError::BadReply);
        };
        references.push(reference)?;
    }
    Ok(references)
}

fn is_before(a: &(&str, &str), b: &(&str, &str)) -> bool
    ensures { result ≡ is_lt (text_cmp a.now.0.now b.now.0.now) }
{
    a.0.cmp(b.0).is_lt()
}

/// Whether pairs are in the strict order of their names.
fn are_by_name(pairs: &[(&str, &str)]) -> bool
    ensures { result ≡ is_sorted text_cmp (texts_of pairs.now) }
{
    for i in 1..pairs.len() {
        if !is_before(&pairs[i - 1], &pairs[i]) {
            return false;
        }
    }
    true
}

fn are_named(pairs: &[(&str, &str)]) -> bool
    ensures { result ≡ are_named (texts_of pairs.now) }
{
    for (name, _) in pairs {
        if !is_name(name) {
            return false;
        }
    }
    true
}

fn have_values(pairs: &[(&str, &str)]) -> bool
    ensures { result ≡ list_all has_value (texts_of pairs.now) }
{
    for (_, value) in pairs {
        if value.is_empty() {
            return false;
        }
    }
    true
}

/// Whether pairs are a label set.
pub(crate) fn are_labels(pairs: &[(&str, &str)]) -> bool
    ensures { result ≡ are_labels (texts_of pairs.now) }
{
    are_by_name(pairs) && are_named(pairs) && have_values(pairs) && pairs.len() <= 64
}

/// The names of members, each with its text.
fn texts_of(alloc: Global, members: &Map<String, Value>) -> Result<Vec<(&str, &str)>, ReplyError>
    ensures { ReadsAs (λ v. texts_of v.items) result
        (texts_said (members_view members.now.entries)) }
{
    let mut texts = Vec::with_capacity(alloc, members.len())?;
    for (name, value) in members {
        let Some(text) = value.as_str() else {
            return Err(ReplyError::BadReply);
        };
        texts.push((name.as_str(), text))?;
    }
    Ok(texts)
}

fn labels_of(alloc: Global, value: &Value) -> Result<LabelSet, ReplyError>
    ensures { ReadsAs (λ l. l) result (labels_said (view value.now)) }
{
    let Some(members) = value.as_object() else {
        return Err(ReplyError::BadReply);
    };
    let pairs = texts_of(alloc, members)?;
    if !are_labels(pairs.as_slice()) {
        return Err(ReplyError::BadReply);
    }
    Ok(LabelSet::of_sorted_texts(alloc, pairs.as_slice())?)
}

fn row_of(alloc: Global, value: &Value) -> Result<Row, ReplyError>
    ensures { ReadsAs (λ row. row) result (row_said (view value.now)) }
{
    if !has_members(value, 2) {
        return Err(ReplyError::BadReply);
    }
    let labels = labels_of(alloc, member(value, "labels")?)?;
    let samples = samples_of(alloc, member(value, "samples")?)?;
    Ok(Row::new(labels, samples))
}

fn rows_of(alloc: Global, value: &Value) -> Result<Vec<Row>, ReplyError>
    ensures { ReadsAs (λ v. v.items) result (list_said row_said (view value.now)) }
{
    let items = items_of(value)?;
    let mut rows = Vec::with_capacity(alloc, items.len())?;
    for item in items {
        rows.push(row_of(alloc, item)?)?;
    }
    Ok(rows)
}

fn name_at(value: &Value) -> Result<PartName, ReplyError>
    ensures { ReadsAs (λ name. name) result
        (said_at (codes "part") part_name_said (view value.now)) }
{
    part_name_of(member(value, "part")?).ok_or(ReplyError::BadReply)
}

fn searched_of(alloc: Global, value: &Value) -> Result<PartAnswer, ReplyError>
    ensures { ReadsAs told_of_answer result (searched_said (view value.now)) }
{
    let part = name_at(value)?;
    let rows = rows_of(alloc, member(value, "rows")?)?;
    let certificate = intervals_of(alloc, member(value, "intervals")?)?;
    let separators = references_of(alloc, member(value, "separators")?)?;
    let cover = PartCover {
        certificate,
        separators,
        moves: 0,
    };
    Ok(PartAnswer { part, rows, cover })
}

fn part_of(alloc: Global, value: &Value) -> Result<ToldPart, ReplyError>
    ensures { ReadsAs told_of_part result (part_said (view value.now)) }
{
    if has_members(value, 2) {
        let number = skipped_of(value).ok_or(ReplyError::BadReply)?;
        return Ok(ToldPart::Skipped(number));
    }
    if !has_members(value, 4) {
        return Err(ReplyError::BadReply);
    }
    Ok(ToldPart::Searched(searched_of(alloc, value)?))
}

fn parts_of(alloc: Global, value: &Value) -> Result<Vec<ToldPart>, ReplyError>
    ensures { ReadsAs (λ v. map told_of_part v.items) result
        (list_said part_said (view value.now)) }
{
    let items = items_of(value)?;
    let mut parts = Vec::with_capacity(alloc, items.len())?;
    for item in items {
        parts.push(part_of(alloc, item)?)?;
    }
    Ok(parts)
}

fn reply_of(alloc: Global, value: &Value) -> Result<Reply, ReplyError>
    ensures { ReadsAs told_of result (reply_said (view value.now)) }
{
    if !has_members(value, 2) {
        return Err(ReplyError::BadReply);
    }
    let parts = parts_of(alloc, member(value, "parts")?)?;
    let rows = rows_of(alloc, member(value, "rows")?)?;
    Ok(Reply { parts, rows })
}

fn tree_of(alloc: Global, text: &[u8]) -> Result<Value, ReplyError>
    ensures { ReadsAs (λ value. view value) result (tree_of text.now) }
{
    match Value::from_slice(alloc, text) {
        Ok(value) => Ok(value),
        Err(error) => if error.is_memory() {
            Err(ReplyError::Memory)
        } else {
            Err(ReplyError::BadReply)
        },
    }
}

impl Reply {
    /// The reply that a text is: JSON of the shape that `querier select` prints, members in any
    /// order; of a member that is given twice the last counts.
    ///
    /// `BadReply` for every other text: members that are missing or further ones, numbers that do
    /// not fit, names of parts that are written in another way, a head that is skipped, labels that
    /// are no label set. It makes lists as long as those of the text, and a tree of a text that is
    /// not spelled as `querier select` spells it.
    pub fn read(alloc: Global, text: &[u8]) -> Result<Reply, ReplyError>
        ensures { ReadsAs told_of result (text_said text.now) }
    {
        if let Some(reply) = usual_reply(alloc, text)? {
            return Ok(reply);
        }
        let tree = tree_of(alloc, text)?;
        reply_of(alloc, &tree)
    }
}

/// The law of names: a text is read as the name of a part only where it is that name as lines write
/// it, and so is each name of a block.
pub fn name_law()
    ensures written { (text : List ℕ) (name : PartName)
        → name_said text ≡ Some name → name_text name ≡ text }
    ensures block { (n : ℕ) → n < 18446744073709551616
        → name_said (name_text (Block n)) ≡ Some (Block n) }
{}
