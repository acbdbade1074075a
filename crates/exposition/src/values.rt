//! Values that are kept as the numbers for their doubles.

ghost use Rattle.std.specs.Prelude.{◌≡◌, ◌≤◌, ◌-◌, ℕ, ℤ, Option, IfSome, drop, length};
ghost use Rattle.double_text.specs.Texts.{double_at};
ghost use Rattle.open_metrics.specs.Tokens.{count_front, front, goes_on};
ghost use Rattle.open_metrics.specs.declared.tokens.Class.TheVariants.{Word};
ghost use Rattle.exposition.specs.Values.{IsKeptFor, text_before};

use double_text::read_double;
use open_metrics::Value;
use stored_doubles::stored;

fn is_in_word(c: u8) -> bool
    ensures { result ≡ goes_on Word c }
{
    !(c == b' ' || c == b'\t')
}

// How many bytes of a word stand in front.
fn word_len(bytes: &[u8]) -> usize
    ensures is { result ≡ count_front Word bytes.now }
    ensures within { result ≤ length bytes.now }
{
    let mut n = 0;
    for c in bytes {
        if !is_in_word(*c) {
            return n;
        }
        n += 1;
    }
    n
}

fn word_at(bytes: &[u8]) -> &[u8]
    ensures { result.now ≡ front Word bytes.now }
{
    bytes.split_at(word_len(bytes)).0
}

fn text_before(line: &[u8], left: usize) -> &[u8]
    ensures { result.now ≡ text_before line.now left }
{
    word_at(line.split_at(line.len().saturating_sub(left)).1)
}

fn kept_for(double: Option<u64>) -> Value
    ensures { IsKeptFor double result }
{
    match double {
        Some(bits) => Value::Parts(stored(bits)),
        None => Value::Other,
    }
}

/// The value that is kept for the double nearest to what a line writes so many bytes before its
/// end.
pub fn double_in(line: &[u8], left: usize) -> Value
    ensures { IsKeptFor (double_at (text_before line.now left)) result }
{
    kept_for(read_double(text_before(line, left)))
}
