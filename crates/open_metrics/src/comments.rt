//! Lines that begin with `#`.

ghost use Rattle.std.specs.Prelude.{◌≡◌};
ghost use Rattle.open_metrics.specs.Comments.{comment_at, family_at, help_at, is_older_type};
ghost use Rattle.open_metrics.specs.Comments.{is_open, is_open_type, is_type, other_at, type_at};
ghost use Rattle.open_metrics.specs.Comments.{unit_at, word_at};
ghost use Rattle.open_metrics.specs.Outcome.{Gives};

use crate::error::{Fault, Reason};
use crate::tokens::{Class, cut_byte, cut_name, cut_word, front_len};

/// The formats of text.
#[derive(Clone, Copy, Debug, PartialEq, Eq, Drop)]
pub enum Format {
    /// OpenMetrics 1.0: times are in seconds, and the text ends with `# EOF`.
    OpenMetrics,
    /// The older text of Prometheus: times are in milliseconds.
    Prometheus,
}

fn is_open_type(text: &[u8]) -> bool
    ensures { result ≡ is_open_type text.now }
{
    text == b"counter".as_slice()
        || (text == b"gauge".as_slice()
            || (text == b"histogram".as_slice()
                || (text == b"gaugehistogram".as_slice()
                    || (text == b"stateset".as_slice()
                        || (text == b"info".as_slice()
                            || (text == b"summary".as_slice() || text == b"unknown".as_slice()))))))
}

fn is_older_type(text: &[u8]) -> bool
    ensures { result ≡ is_older_type text.now }
{
    text == b"counter".as_slice()
        || (text == b"gauge".as_slice()
            || (text == b"histogram".as_slice()
                || (text == b"summary".as_slice() || text == b"untyped".as_slice())))
}

fn is_type(format: Format, text: &[u8]) -> bool
    ensures { result ≡ is_type format text.now }
{
    match format {
        Format::OpenMetrics => is_open_type(text),
        Format::Prometheus => is_older_type(text),
    }
}

fn is_open(format: Format) -> bool
    ensures { result ≡ is_open format }
{
    match format {
        Format::OpenMetrics => true,
        Format::Prometheus => false,
    }
}

// A space, the name of a metric, and a space.
#[tactic(auto, unfolding(crate::specs::Comments::family_at))]
fn cut_family(bytes: &[u8]) -> Result<&[u8], Fault>
    ensures { Gives (λ x. x.now) result (family_at bytes.now) }
{
    let name = cut_byte(b' ', Reason::Name, bytes)?;
    let (_, rest) = cut_name(Class::Metric, Reason::Name, name)?;
    let text = cut_byte(b' ', Reason::Comment, rest)?;
    Ok(text)
}

#[tactic(auto, unfolding(crate::specs::Comments::help_at))]
fn read_help(bytes: &[u8]) -> Result<bool, Fault>
    ensures { Gives (λ x. x) result (help_at bytes.now) }
{
    cut_family(bytes)?;
    Ok(false)
}

#[tactic(auto, unfolding(crate::specs::Comments::type_at))]
fn read_type(format: Format, bytes: &[u8]) -> Result<bool, Fault>
    ensures { Gives (λ x. x) result (type_at format bytes.now) }
{
    let text = cut_family(bytes)?;
    if !is_type(format, text) {
        return Err(Fault::At(Reason::Kind, text.len()));
    }
    Ok(false)
}

#[tactic(auto, unfolding(crate::specs::Comments::unit_at))]
fn read_unit(bytes: &[u8]) -> Result<bool, Fault>
    ensures { Gives (λ x. x) result (unit_at bytes.now) }
{
    let text = cut_family(bytes)?;
    if front_len(Class::Metric, text) != text.len() {
        return Err(Fault::At(Reason::Comment, text.len()));
    }
    Ok(false)
}

fn read_other(format: Format, bytes: &[u8]) -> Result<bool, Fault>
    ensures { Gives (λ x. x) result (other_at format bytes.now) }
{
    match format {
        Format::OpenMetrics => Err(Fault::At(Reason::Comment, bytes.len())),
        Format::Prometheus => Ok(false),
    }
}

#[tactic(auto, unfolding(crate::specs::Comments::word_at))]
fn read_word(format: Format, bytes: &[u8]) -> Result<bool, Fault>
    ensures { Gives (λ x. x) result (word_at format bytes.now) }
{
    let (word, rest) = cut_word(Class::Word, bytes);
    if word == b"HELP".as_slice() {
        read_help(rest)
    } else if word == b"TYPE".as_slice() {
        read_type(format, rest)
    } else if is_open(format) && word == b"UNIT".as_slice() {
        read_unit(rest)
    } else if is_open(format) && bytes == b"EOF".as_slice() {
        Ok(true)
    } else {
        read_other(format, bytes)
    }
}

/// Whether a text ends with the line of which this stands behind its `#`.
#[tactic(auto, unfolding(crate::specs::Comments::comment_at))]
pub fn read_comment(format: Format, bytes: &[u8]) -> Result<bool, Fault>
    ensures { Gives (λ x. x) result (comment_at format bytes.now) }
{
    let Some((first, rest)) = bytes.split_first() else {
        return read_other(format, bytes);
    };
    if *first == b' ' {
        read_word(format, rest)
    } else {
        read_other(format, bytes)
    }
}
