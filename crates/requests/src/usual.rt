//! The body of `/write` in its usual spelling, read straight from its tokens: an array of rows,
//! each an object of `labels`, in the order of their names, and then `samples`, whose times and
//! values are integers. Most bodies are of this form, and it needs no tree of JSON values.

ghost use Rattle.std.specs.Prelude.{◌≡◌, ◌<◌, ◌==◌, ◌∷◌, Some, true, false, length, slice_index};
ghost use Rattle.std.specs.Prelude.{option_and_then, IfOk, IfSome, OnOk, IsTrue};
ghost use Rattle.std.specs.Ordering.{nat_cmp};
ghost use Rattle.std.specs.declared.cmp.Ordering.TheVariants.{Greater};
ghost use Rattle.std.specs.Cmp.Lexicographic.{slice_cmp};
ghost use Rattle.fast_float.specs.Text.{scan};
ghost use Rattle.json.specs.Token as token;
ghost use Rattle.labels.specs.LabelSets.{has_value};
ghost use Rattle.labels.specs.Names.{is_name};
ghost use Rattle.labels.specs.Pairs.{texts_of};
ghost use Rattle.serde_json.specs.Find.{as_i64};
ghost use Rattle.serde_json.specs.Read.{number_from, number_of};
ghost use Rattle.requests.specs.Json.{integer_in};
ghost use Rattle.requests.specs.Rows.{sample_in};
ghost use Rattle.requests.specs.Usual.{AreLabels, Comes, RowComes, RowsCome, pairs_of_object};
ghost use Rattle.requests.specs.Usual.{samples_of_list};
ghost use Rattle.requests.specs.Writing.{IsWritten};

use fast_float::Numeral;
use json::{Invalid, Reader, Scratch, Token};
use labels::{LabelSet, MAX_LABELS, Row, Sample, is_name, is_time};
use std::alloc::{AllocError, AllocFailed, Global};
use std::cmp::Ordering;

/// Why no rows were read.
#[derive(Clone, Copy, Debug, PartialEq, Eq, Drop)]
enum Stop {
    /// The body is spelled in another way, or is no batch.
    Unusual,
    /// There is no memory left.
    Memory,
}

impl From<AllocError> for Stop {
    fn from(_: AllocError) -> Stop {
        Stop::Memory
    }
}

impl<T: Drop> From<AllocFailed<T>> for Stop {
    fn from(_: AllocFailed<T>) -> Stop {
        Stop::Memory
    }
}

impl From<Invalid> for Stop {
    fn from(_: Invalid) -> Stop {
        Stop::Unusual
    }
}

fn begin_array(reader: &mut Reader<'_>) -> Result<(), Stop>
    ensures { OnOk result (reader.old ≡ token.begin_array ∷ reader.new) }
{
    match reader.next() {
        Some(Token::BeginArray) => Ok(()),
        _ => Err(Stop::Unusual),
    }
}

fn end_array(reader: &mut Reader<'_>) -> Result<(), Stop>
    ensures { OnOk result (reader.old ≡ token.end_array ∷ reader.new) }
{
    match reader.next() {
        Some(Token::EndArray) => Ok(()),
        _ => Err(Stop::Unusual),
    }
}

fn begin_object(reader: &mut Reader<'_>) -> Result<(), Stop>
    ensures { OnOk result (reader.old ≡ token.begin_object ∷ reader.new) }
{
    match reader.next() {
        Some(Token::BeginObject) => Ok(()),
        _ => Err(Stop::Unusual),
    }
}

fn end_object(reader: &mut Reader<'_>) -> Result<(), Stop>
    ensures { OnOk result (reader.old ≡ token.end_object ∷ reader.new) }
{
    match reader.next() {
        Some(Token::EndObject) => Ok(()),
        _ => Err(Stop::Unusual),
    }
}

fn key(reader: &mut Reader<'_>, name: &str) -> Result<(), Stop>
    ensures { OnOk result (reader.old ≡ token.key name.now ∷ reader.new) }
{
    match reader.next() {
        Some(Token::Key(found)) if found == name => Ok(()),
        _ => Err(Stop::Unusual),
    }
}

fn text<'t>(reader: &mut Reader<'t>) -> Result<&'t str, Stop>
    ensures { IfOk result (λ text. reader.old ≡ token.string text.now ∷ reader.new) }
{
    match reader.next() {
        Some(Token::String(text)) => Ok(text),
        _ => Err(Stop::Unusual),
    }
}

fn number<'t>(reader: &mut Reader<'t>) -> Result<&'t str, Stop>
    ensures { IfOk result (λ text. reader.old ≡ token.number text.now ∷ reader.new) }
{
    match reader.next() {
        Some(Token::Number(text)) => Ok(text),
        _ => Err(Stop::Unusual),
    }
}

/// A number below this is below 10^18 with one digit more.
const FEW: u64 = 100_000_000_000_000_000;

/// The integer of a numeral without a sign.
fn unsigned(numeral: &Numeral<'_>) -> Option<i64>
    ensures { IfSome result (λ z. option_and_then as_i64 (number_from false numeral.now) ≡ Some z) }
{
    numeral.to_i64(false)
}

/// The integer below 0 of a numeral after a minus: `-0` is none.
fn negative(numeral: &Numeral<'_>) -> Option<i64>
    ensures { IfSome result (λ z. option_and_then as_i64 (number_from true numeral.now) ≡ Some z) }
{
    let value = numeral.to_i64(true)?;
    if value < 0 { Some(value) } else { None }
}

/// The number that digits alone write, if it is below 10^18: the usual form of a time and a value.
fn few_digits(bytes: &[u8]) -> Option<i64>
    ensures { IfSome result (λ z. option_and_then as_i64 (number_from false (scan bytes.now))
        ≡ Some z) }
{
    if bytes.is_empty() {
        return None;
    }
    let mut value = 0u64;
    let mut at = 0;
    'digits: while at < bytes.len() {
        let digit = bytes[at].wrapping_sub(b'0');
        if digit > 9 || value >= FEW {
            return None;
        }
        value = value * 10 + digit as u64;
        at += 1;
    }
    Some(value as i64)
}

fn has_minus(bytes: &[u8]) -> bool
    ensures value { result ≡ (slice_index bytes.now 0 == 45) }
    ensures len { IsTrue result → 0 < length bytes.now }
{
    !bytes.is_empty() && bytes[0] == b'-'
}

/// The integer that the text of a number is, from -2^63 to 2^63 - 1.
fn integer_of(text: &str) -> Option<i64>
    ensures { IfSome result (λ z. option_and_then as_i64 (number_of text.now) ≡ Some z) }
{
    let bytes = text.as_bytes();
    if has_minus(bytes) {
        negative(&Numeral::scan(&bytes[1..]))
    } else {
        match few_digits(bytes) {
            Some(value) => Some(value),
            None => unsigned(&Numeral::scan(bytes)),
        }
    }
}

fn integer(reader: &mut Reader<'_>) -> Result<i64, Stop>
    ensures { IfOk result (λ z. Comes integer_in 0 reader.old z reader.new) }
{
    let text = number(reader)?;
    match integer_of(text) {
        Some(value) => Ok(value),
        None => Err(Stop::Unusual),
    }
}

fn sample(reader: &mut Reader<'_>) -> Result<Sample, Stop>
    ensures { IfOk result (λ s. Comes sample_in 1 reader.old s reader.new) }
{
    begin_array(reader)?;
    let t = integer(reader)?;
    let v = integer(reader)?;
    end_array(reader)?;
    if is_time(t) {
        Ok(Sample::new(t, v))
    } else {
        Err(Stop::Unusual)
    }
}

/// The samples of a row, in a list that has room for so many at once.
fn samples(alloc: Global, reader: &mut Reader<'_>, room: usize) -> Result<Vec<Sample>, Stop>
    ensures { IfOk result (λ v. Comes samples_of_list 2 reader.old v.items reader.new) }
{
    begin_array(reader)?;
    let mut samples = Vec::with_capacity(alloc, room)?;
    'samples: while !reader.take_end_array() {
        samples.push(sample(reader)?)?;
    }
    Ok(samples)
}

/// Whether a pair may stand in a label set after the pair of the name `last`.
fn may_follow(last: &str, name: &str, value: &str) -> bool
    ensures behind { IsTrue result → slice_cmp nat_cmp name.now last.now ≡ Greater }
    ensures named { IsTrue result → is_name name.now ≡ true }
    ensures valued { IsTrue result → has_value (name.now, value.now) ≡ true }
{
    name.cmp(last) == Ordering::Greater && is_name(name) && !value.is_empty()
}

/// Reads the pairs of a row into a list, in place of what it held.
fn read_pairs<'t>(reader: &mut Reader<'t>, pairs: &mut Vec<(&'t str, &'t str)>) -> Result<(), Stop>
    ensures comes { OnOk result
        (Comes pairs_of_object 1 reader.old (texts_of pairs.new.items) reader.new) }
    ensures labels { OnOk result (AreLabels (texts_of pairs.new.items)) }
{
    begin_object(reader)?;
    pairs.clear();
    let mut last = "";
    'pairs: while let Some(name) = reader.next_key()? {
        let value = text(reader)?;
        if pairs.len() == MAX_LABELS || !may_follow(last, name, value) {
            return Err(Stop::Unusual);
        }
        pairs.push((name, value))?;
        last = name;
    }
    Ok(())
}

/// The next row. Its pairs are read into a list that rows share; its list of samples has room for
/// so many at once.
fn row<'t>(
    alloc: Global,
    reader: &mut Reader<'t>,
    pairs: &mut Vec<(&'t str, &'t str)>,
    room: usize,
) -> Result<Row, Stop>
    ensures { IfOk result (λ row. RowComes reader.old row reader.new) }
{
    begin_object(reader)?;
    key(reader, "labels")?;
    read_pairs(reader, pairs)?;
    key(reader, "samples")?;
    let samples = samples(alloc, reader, room)?;
    end_object(reader)?;
    let labels = LabelSet::of_sorted_texts(alloc, pairs.as_slice())?;
    Ok(Row::new(labels, samples))
}

/// The rows of a list. A list of samples gets the room that the one before took: rows mostly have
/// as many.
fn rows(alloc: Global, reader: &mut Reader<'_>) -> Result<Vec<Row>, Stop>
    ensures { IfOk result (λ rows. RowsCome reader.old rows.items reader.new) }
{
    begin_array(reader)?;
    let mut rows = Vec::new(alloc);
    let mut pairs = Vec::new(alloc);
    let mut room = 0;
    'rows: while !reader.take_end_array() {
        let row = row(alloc, reader, &mut pairs, room)?;
        room = row.samples().len();
        rows.push(row)?;
    }
    Ok(rows)
}

fn rows_of_text(alloc: Global, text: &str) -> Result<Vec<Row>, Stop>
    ensures { IfOk result (λ rows. IsWritten text.now rows.items) }
{
    let mut scratch = Scratch::new(alloc);
    let mut reader = Reader::new(text, &mut scratch)?;
    let rows = rows(alloc, &mut reader)?;
    match reader.next() {
        None => Ok(rows),
        Some(_) => Err(Stop::Unusual),
    }
}

/// The rows that a body writes, where it is spelled as usual; nothing is said of another body.
pub fn usual_rows(alloc: Global, body: &[u8]) -> Result<Option<Vec<Row>>, AllocError>
    ensures { IfOk result (λ o. IfSome o (λ rows. IsWritten body.now rows.items)) }
{
    let Ok(text) = simdutf8::compat::from_utf8(body) else {
        return Ok(None);
    };
    match rows_of_text(alloc, text) {
        Ok(rows) => Ok(Some(rows)),
        Err(Stop::Unusual) => Ok(None),
        Err(Stop::Memory) => Err(AllocError),
    }
}
