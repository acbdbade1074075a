//! What a matcher chooses from a part.

ghost use Rattle.std.specs.Prelude.{◌≡◌, ◌≢◌, ◌+◌, ◌<◌, ℕ, List, [], length, map, slice_get};
ghost use Rattle.std.specs.Prelude.{Some, IfOk, IsTrue};
ghost use Rattle.std.specs.Str.{bytes_eq};
ghost use Rattle.labels.specs.Labels.{value_of};
ghost use Rattle.labels.specs.Parts.{references_where, carries};
ghost use Rattle.labels.specs.Sets.{union_all};
ghost use Rattle.matchers.specs.Satisfies.{accepts_text, satisfies};
ghost use Rattle.postings.specs.Differing.{differs, differs_in, AreDiffering};

use crate::{Chosen, Postings, Source, Union, Without};
use matchers::{Matcher, Op, Tester};
use std::alloc::{AllocError, Global};

/// Whether the text of the matcher is the only value that it treats otherwise than an absent label.
fn singles_out_its_text(matcher: &Matcher) -> bool
    ensures text { IsTrue result → matcher.now.text ≢ [] }
    ensures alone { IsTrue result → (value : List ℕ)
        → differs matcher.now value ≡ bytes_eq value matcher.now.text }
{
    !matcher.text().is_empty() && matches!(matcher.op(), Op::Equal | Op::NotEqual)
}

/// The list of the series with this value of the name, if there are any.
fn lists_of_text<S: Source>(
    alloc: Global,
    source: &S,
    name: &str,
    text: &str,
) -> Result<Vec<S::List>, AllocError>
    ensures { IfOk result (λ lists. union_all (map S.List.remaining lists.items)
        ≡ references_where (carries name.now text.now) (S.part source.now)) }
{
    let mut lists = Vec::new(alloc);
    if let Some(list) = source.list(name, text) {
        lists.push(list)?;
    }
    Ok(lists)
}

/// The lists of the values that the matcher treats otherwise than an absent label, where these
/// are known.
fn lists_of_choices<S: Source>(
    alloc: Global,
    source: &S,
    matcher: &Matcher,
    choices: &[&str],
) -> Result<Vec<S::List>, AllocError>
    requires { AreDiffering matcher.now (map (λ choice. choice.now) choices.now) }
    ensures { IfOk result (λ lists. union_all (map S.List.remaining lists.items)
        ≡ references_where (differs_in matcher.now) (S.part source.now)) }
{
    let mut lists = Vec::new(alloc);
    for choice in choices {
        if let Some(list) = source.list(matcher.name(), choice) {
            lists.push(list)?;
        }
    }
    Ok(lists)
}

/// The value at a place, where the one before it, if there is one, is at hand.
fn next_value<'a, S: Source>(source: &'a S, name: &str, i: usize, before: &str) -> &'a str
    requires within { i < length (S.values source.now name.now) }
    requires before { (k : ℕ) → k + 1 ≡ i
        → slice_get (S.values source.now name.now) k ≡ Some before.now }
    ensures { slice_get (S.values source.now name.now) i ≡ Some result.now }
{
    if i == 0 {
        return source.value_at(name, 0);
    }
    source.value_after(name, i, before)
}

/// The lists of the values of the name that the matcher treats otherwise than an absent label,
/// found by trying each.
fn lists_of_values<S: Source>(
    alloc: Global,
    source: &S,
    name: &str,
    tester: &mut Tester<'_>,
    with_absent: bool,
) -> Result<Vec<S::List>, AllocError>
    requires { with_absent ≡ accepts_text tester.old [] }
    ensures { IfOk result (λ lists. union_all (map S.List.remaining lists.items)
        ≡ references_where (λ labels. differs tester.old (value_of labels name.now))
        (S.part source.now)) }
{
    let mut lists = Vec::new(alloc);
    let mut value = "";
    for i in 0..source.value_count(name) {
        value = next_value(source, name, i, value);
        if tester.accepts(value) != with_absent {
            if let Some(list) = source.list(name, value) {
                lists.push(list)?;
            }
        }
    }
    Ok(lists)
}

/// The lists of the values that the matcher treats otherwise than an absent label.
fn differing_lists<S: Source>(
    alloc: Global,
    source: &S,
    matcher: &Matcher,
    tester: &mut Tester<'_>,
    with_absent: bool,
) -> Result<Vec<S::List>, AllocError>
    requires same { tester.old ≡ matcher.now }
    requires absent { with_absent ≡ accepts_text matcher.now [] }
    ensures { IfOk result (λ lists. union_all (map S.List.remaining lists.items)
        ≡ references_where (differs_in matcher.now) (S.part source.now)) }
{
    if singles_out_its_text(matcher) {
        return lists_of_text(alloc, source, matcher.name(), matcher.text());
    }
    match matcher.choices(alloc)? {
        Some(choices) => lists_of_choices(alloc, source, matcher, &choices),
        None => lists_of_values(alloc, source, matcher.name(), tester, with_absent),
    }
}

/// The series that satisfy the matcher, an absent label counting as the empty text.
///
/// A matcher that compares with a text other than the empty one takes one list of the source, and
/// one whose pattern is a choice of plain texts, as `a|b|c`, a list for each of them. Any other is
/// tried on each value of its name, a pattern's search being made once for all of them.
/// The room of the answer is made here: its moves take no memory.
pub fn choose<S: Source>(
    alloc: Global,
    source: &S,
    matcher: &Matcher,
) -> Result<Chosen<S::List>, AllocError>
    ensures { IfOk result (λ chosen. ⟦<Chosen<S::List> as Postings>⟧.remaining chosen
        ≡ references_where (λ labels. satisfies matcher.now labels) (S.part source.now)) }
{
    let mut tester = matcher.tester(alloc)?;
    let with_absent = tester.accepts("");
    let lists = differing_lists(alloc, source, matcher, &mut tester, with_absent)?;
    let differing = Union::new(alloc, lists)?;
    if with_absent {
        Ok(Chosen::AllBut(Without::new(source.all(), differing)))
    } else {
        Ok(Chosen::Listed(differing))
    }
}
