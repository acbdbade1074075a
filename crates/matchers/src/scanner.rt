//! The machine that reads selectors, character by character.

ghost use Rattle.std.specs.Prelude.{◌≡◌, Some, None};
ghost use Rattle.labels.specs.Names.{starts_name, continues_name};
ghost use Rattle.matchers.specs.Grammar.{is_space, starts_metric, continues_metric};
ghost use Rattle.matchers.specs.Scanner.{from_start, from_metric, from_after_metric, from_open};
ghost use Rattle.matchers.specs.Scanner.{from_comma, from_label, from_after_label, from_equals};
ghost use Rattle.matchers.specs.Scanner.{from_bang, from_before_text, from_text, from_escape};
ghost use Rattle.matchers.specs.Scanner.{from_after_text, from_end, step, end_mark};

use crate::Op;

/// Where the machine stands: what it has just read.
#[derive(Clone, Copy, Drop)]
pub enum State {
    Start,
    Metric,
    AfterMetric,
    Open,
    Comma,
    Label,
    AfterLabel,
    Equals,
    Bang,
    BeforeText(Op),
    Text(Op),
    Escape(Op),
    AfterText,
    End,
}

/// What a character is to the matcher that it belongs to.
#[derive(Clone, Copy, Drop)]
pub enum Mark {
    /// Nothing.
    Skip,
    /// The next of a label name.
    Name,
    /// The next of a quoted text or a metric name.
    Text,
    /// Stands for a line feed in a quoted text.
    LineFeed,
    /// A metric name has ended.
    Metric,
    /// A matcher has ended.
    Matcher(Op),
}

fn is_space(c: char) -> bool
    ensures { result ≡ is_space c }
{
    c == ' ' || c == '\t' || c == '\r' || c == '\n'
}

fn starts_name(c: char) -> bool
    ensures { result ≡ starts_name c }
{
    c.is_ascii_alphabetic() || c == '_'
}

fn continues_name(c: char) -> bool
    ensures { result ≡ continues_name c }
{
    starts_name(c) || c.is_ascii_digit()
}

fn starts_metric(c: char) -> bool
    ensures { result ≡ starts_metric c }
{
    starts_name(c) || c == ':'
}

fn continues_metric(c: char) -> bool
    ensures { result ≡ continues_metric c }
{
    continues_name(c) || c == ':'
}

fn from_start(c: char) -> Option<(State, Mark)>
    ensures { result ≡ from_start c }
{
    if is_space(c) {
        Some((State::Start, Mark::Skip))
    } else if starts_metric(c) {
        Some((State::Metric, Mark::Text))
    } else if c == '{' {
        Some((State::Open, Mark::Skip))
    } else {
        None
    }
}

fn from_metric(c: char) -> Option<(State, Mark)>
    ensures { result ≡ from_metric c }
{
    if continues_metric(c) {
        Some((State::Metric, Mark::Text))
    } else if is_space(c) {
        Some((State::AfterMetric, Mark::Metric))
    } else if c == '{' {
        Some((State::Open, Mark::Metric))
    } else {
        None
    }
}

fn from_after_metric(c: char) -> Option<(State, Mark)>
    ensures { result ≡ from_after_metric c }
{
    if is_space(c) {
        Some((State::AfterMetric, Mark::Skip))
    } else if c == '{' {
        Some((State::Open, Mark::Skip))
    } else {
        None
    }
}

fn from_open(c: char) -> Option<(State, Mark)>
    ensures { result ≡ from_open c }
{
    if is_space(c) {
        Some((State::Open, Mark::Skip))
    } else if starts_name(c) {
        Some((State::Label, Mark::Name))
    } else if c == '}' {
        Some((State::End, Mark::Skip))
    } else {
        None
    }
}

fn from_comma(c: char) -> Option<(State, Mark)>
    ensures { result ≡ from_comma c }
{
    if is_space(c) {
        Some((State::Comma, Mark::Skip))
    } else if starts_name(c) {
        Some((State::Label, Mark::Name))
    } else {
        None
    }
}

fn from_after_label(c: char) -> Option<(State, Mark)>
    ensures { result ≡ from_after_label c }
{
    if is_space(c) {
        Some((State::AfterLabel, Mark::Skip))
    } else if c == '=' {
        Some((State::Equals, Mark::Skip))
    } else if c == '!' {
        Some((State::Bang, Mark::Skip))
    } else {
        None
    }
}

fn from_label(c: char) -> Option<(State, Mark)>
    ensures { result ≡ from_label c }
{
    if continues_name(c) {
        Some((State::Label, Mark::Name))
    } else {
        from_after_label(c)
    }
}

fn from_before_text(op: Op, c: char) -> Option<(State, Mark)>
    ensures { result ≡ from_before_text op c }
{
    if is_space(c) {
        Some((State::BeforeText(op), Mark::Skip))
    } else if c == '"' {
        Some((State::Text(op), Mark::Skip))
    } else {
        None
    }
}

fn from_equals(c: char) -> Option<(State, Mark)>
    ensures { result ≡ from_equals c }
{
    if c == '~' {
        Some((State::BeforeText(Op::Like), Mark::Skip))
    } else {
        from_before_text(Op::Equal, c)
    }
}

fn from_bang(c: char) -> Option<(State, Mark)>
    ensures { result ≡ from_bang c }
{
    if c == '=' {
        Some((State::BeforeText(Op::NotEqual), Mark::Skip))
    } else if c == '~' {
        Some((State::BeforeText(Op::NotLike), Mark::Skip))
    } else {
        None
    }
}

fn from_text(op: Op, c: char) -> Option<(State, Mark)>
    ensures { result ≡ from_text op c }
{
    if c == '"' {
        Some((State::AfterText, Mark::Matcher(op)))
    } else if c == '\\' {
        Some((State::Escape(op), Mark::Skip))
    } else if c == '\n' {
        None
    } else {
        Some((State::Text(op), Mark::Text))
    }
}

fn from_escape(op: Op, c: char) -> Option<(State, Mark)>
    ensures { result ≡ from_escape op c }
{
    if c == '"' || c == '\\' {
        Some((State::Text(op), Mark::Text))
    } else if c == 'n' {
        Some((State::Text(op), Mark::LineFeed))
    } else {
        None
    }
}

fn from_after_text(c: char) -> Option<(State, Mark)>
    ensures { result ≡ from_after_text c }
{
    if is_space(c) {
        Some((State::AfterText, Mark::Skip))
    } else if c == ',' {
        Some((State::Comma, Mark::Skip))
    } else if c == '}' {
        Some((State::End, Mark::Skip))
    } else {
        None
    }
}

fn from_end(c: char) -> Option<(State, Mark)>
    ensures { result ≡ from_end c }
{
    if is_space(c) {
        Some((State::End, Mark::Skip))
    } else {
        None
    }
}

/// The next state, where the character may come, and what it is there.
#[tactic(auto, unfolding(crate::specs::Scanner::step))]
pub fn step(state: State, c: char) -> Option<(State, Mark)>
    ensures { result ≡ step state c }
{
    match state {
        State::Start => from_start(c),
        State::Metric => from_metric(c),
        State::AfterMetric => from_after_metric(c),
        State::Open => from_open(c),
        State::Comma => from_comma(c),
        State::Label => from_label(c),
        State::AfterLabel => from_after_label(c),
        State::Equals => from_equals(c),
        State::Bang => from_bang(c),
        State::BeforeText(op) => from_before_text(op, c),
        State::Text(op) => from_text(op, c),
        State::Escape(op) => from_escape(op, c),
        State::AfterText => from_after_text(c),
        State::End => from_end(c),
    }
}

/// What the end of the text is, where it may come.
pub fn end_mark(state: State) -> Option<Mark>
    ensures { result ≡ end_mark state }
{
    match state {
        State::Metric => Some(Mark::Metric),
        State::AfterMetric | State::End => Some(Mark::Skip),
        _ => None,
    }
}
