//! Blocks out of text.

ghost use Rattle.std.specs.Prelude.{◌≡◌, ◌≤◌, IfErr, IfOk, MatchBool, OnOk};
ghost use Rattle.blocktool.specs.Texts.{AreAllowed, AreLeftOut, first_within};
ghost use Rattle.blocktool.specs.Forms.{places_of, reading_of, rest_of};
ghost use Rattle.blocktool.specs.Texts.{IsOtherRefused};
ghost use Rattle.blocktool.specs.Texts.{IsSaidBy, IsTextRefused, IsToldFor, IsToldOf};
ghost use Rattle.blocktool.specs.Texts.{IsToldRefused};
ghost use Rattle.imported_values.specs.declared.policy.Rest.TheVariants.{Refuse};

use crate::command::Options;
use crate::fault::Fault;
use crate::form::{places_of, reading_of};
use crate::listed::Listed;
use crate::progress::Teller;
use crate::text_input::{Said, write_said};
use crate::texts::{name_of, read_text};
use block_outputs::Stretch;
use exposition::{Exposition, Left, ReadError, Reading};
use imported_values::{Form, Rest};
use open_metrics::Format;
use std::alloc::{AllocError, Global};
use std::io::{Read, Write};
use std::rt::Files;

/// A text: its format, and the file in which it is, if it is not standard input.
#[derive(Clone, Copy, Drop)]
pub(crate) struct TextIn<'a> {
    pub(crate) format: Format,
    pub(crate) file: Option<&'a str>,
}

// The refusal of a text with this name.
#[tactic(auto, using(crate::proofs::Told::text_told, crate::proofs::Told::no_text_told))]
fn refused(alloc: Global, file: Option<&str>, error: ReadError) -> Fault
    ensures { IsToldFor error result }
{
    let Ok(name) = name_of(alloc, file) else {
        return Fault::Memory;
    };
    match error {
        ReadError::Memory => Fault::Memory,
        ReadError::Refused(refusal) => Fault::Text(name, refusal),
    }
}

// The refusal of a sample with another value.
#[tactic(auto, using(crate::proofs::Told::other_told, crate::proofs::Told::no_other_told))]
fn other(alloc: Global, file: Option<&str>, left: Left) -> Fault
    ensures { IsToldOf left result }
{
    match name_of(alloc, file) {
        Ok(name) => Fault::Other(name, left),
        Err(_) => Fault::Memory,
    }
}

fn are_left_out_by(rest: Rest) -> bool
    ensures { MatchBool result (AreLeftOut rest) (rest ≡ Refuse) }
{
    match rest {
        Rest::Drop | Rest::Round => true,
        Rest::Refuse => false,
    }
}

fn are_left_out(form: Form) -> bool
    ensures { MatchBool result (AreLeftOut (rest_of form)) (rest_of form ≡ Refuse) }
{
    match form {
        Form::Parts(policy) => are_left_out_by(policy.rest),
        Form::Doubles => false,
    }
}

/// The first of samples with other values that lies in a range.
fn first_within(others: &[Left], times: Stretch) -> Option<Left>
    ensures { result ≡ first_within times.from times.to others.now }
{
    others.iter().copied().find(|left| times.has(left.t))
}

/// Refuses the first of samples with other values in the range, unless they are to be left out.
#[tactic(auto, using(crate::proofs::Told::left_out_allowed, crate::proofs::Told::none_allowed, crate::proofs::Told::first_refused))]
fn check_others(
    alloc: Global,
    file: Option<&str>,
    options: &Options<'_>,
    others: &[Left],
) -> Result<(), Fault>
    ensures allowed { OnOk result
        (AreAllowed (rest_of options.now.form) options.now.times others.now) }
    ensures refused { IfErr result
        (IsOtherRefused (rest_of options.now.form) options.now.times others.now) }
{
    if are_left_out(options.form) {
        return Ok(());
    }
    match first_within(others, options.times) {
        Some(left) => Err(other(alloc, file, left)),
        None => Ok(()),
    }
}

// What a text says.
#[tactic(auto, using(crate::proofs::Told::text_refused))]
fn read_said(
    alloc: Global,
    places: u32,
    reading: Reading,
    text_in: TextIn<'_>,
    text: &[u8],
) -> Result<Said, Fault>
    requires { places ≤ 9 }
    ensures found { IfOk result (IsSaidBy text_in.entry.format places reading text.now) }
    ensures refused { IfErr result
        (IsToldRefused text_in.entry.format places reading text.now) }
{
    match exposition::read_text(alloc, text_in.format, places, reading, text) {
        Ok(
            Exposition {
                rows,
                others,
                rounded,
                exemplars,
            },
        ) => Ok(Said {
            listed: Listed { rows },
            others,
            rounded,
            exemplars,
        }),
        Err(error) => Err(refused(alloc, text_in.file, error)),
    }
}

// What a text says, as a form asks for it.
fn said_as(
    alloc: Global,
    options: &Options<'_>,
    text_in: TextIn<'_>,
    text: &[u8],
) -> Result<Said, Fault>
    ensures found { IfOk result (IsSaidBy text_in.entry.format (places_of options.now.form)
        (reading_of options.now.form) text.now) }
    ensures refused { IfErr result (IsToldRefused text_in.entry.format
        (places_of options.now.form) (reading_of options.now.form) text.now) }
{
    let places = places_of(options.form);
    let reading = reading_of(options.form);
    let said = read_said(alloc, places, reading, text_in, text)?;
    Ok(said)
}

#[tactic(auto, using(crate::proofs::Told::refused_by_text, crate::proofs::Told::refused_by_other))]
fn said_by(
    alloc: Global,
    options: &Options<'_>,
    text_in: TextIn<'_>,
    text: &[u8],
) -> Result<Said, Fault>
    // What is given is what the text says.
    ensures found { IfOk result (IsSaidBy text_in.entry.format (places_of options.now.form)
        (reading_of options.now.form) text.now) }
    ensures allowed { IfOk result (λ said.
        AreAllowed (rest_of options.now.form) options.now.times said.others.items) }
    // The error is the text's refusal, or that of its first value that is not allowed.
    ensures refused { IfErr result (IsTextRefused text_in.entry.format options.now.form text.now
        options.now.times) }
{
    let said = said_as(alloc, options, text_in, text)?;
    check_others(alloc, text_in.file, options, said.others.as_slice())?;
    Ok(said)
}

/// Makes blocks out of a text, in which the later line wins.
pub(crate) fn from_openmetrics<R: Files + AllocGlobal + Clone + Drop, I: Read, W: Write, E: Write>(
    alloc: Global,
    rt: &R,
    options: &Options<'_>,
    text_in: TextIn<'_>,
    input: &mut I,
    out: &mut W,
    teller: &mut Teller<'_, E>,
) -> Result<(), Fault> {
    teller.is_at("reading the text")?;
    let text = read_text(alloc, rt, text_in.file, input)?;
    let said = said_by(alloc, options, text_in, text.as_slice())?;
    let target = options.target();
    write_said(alloc, rt, said, options.times, &target, out, teller)
}
