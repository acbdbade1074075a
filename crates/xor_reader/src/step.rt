//! One sample after another: a change of the step between times, and a difference of values.

ghost use Rattle.std.specs.Prelude.{◌≡◌, ◌<◌, ◌≤◌, ◌+◌, ◌^◌, ◌+ℤ◌, ◌≤ℤ◌, ◌<ℤ◌, pos, IfOk};
ghost use Rattle.xor_reader.specs.Grammar.{width, greatest, signed, with_difference, IsWindow};
ghost use Rattle.xor_reader.specs.Grammar.{IsTime, IsState};
ghost use Rattle.xor_reader.specs.Outcome.{ReadsFront};
ghost use Rattle.xor_reader.specs.Reading.{form_at, change_at, window_at, scope_at, difference_at};
ghost use Rattle.xor_reader.specs.Reading.{next_time, value_at, step_at};
ghost use Rattle.wire.specs.Outcome.{Answers};

use crate::bits::Bits;
use crate::error::XorError;
use labels::MAX_TIME;

/// The forms of a change of the step, by how many bits it takes.
#[derive(Clone, Copy, Debug, PartialEq, Eq)]
pub enum Form {
    Bits14,
    Bits17,
    Bits20,
    Bits64,
}

/// Where two values may differ: in the bits after the highest `leading`, so many as `significant`.
#[derive(Clone, Copy, Debug, PartialEq, Eq)]
pub struct Window {
    pub leading: u32,
    pub significant: u32,
}

/// A sample, the step between its time and the one before, and the window that was last told.
#[derive(Clone, Copy, Debug, PartialEq, Eq)]
pub struct State {
    pub time: i64,
    pub step: i64,
    pub value: u64,
    pub window: Window,
}

fn width(form: Form) -> u32
    ensures { result ≡ width form }
{
    match form {
        Form::Bits14 => 14,
        Form::Bits17 => 17,
        Form::Bits20 => 20,
        Form::Bits64 => 64,
    }
}

// How the step changes: None where it stays.
#[tactic(auto, unfolding(crate::specs::Reading::form_at))]
fn read_form(bits: &mut Bits<'_>) -> Result<Option<Form>, XorError>
    ensures { ReadsFront (λ f. f) (form_at bits.old) result bits.new }
{
    if !bits.bit()? {
        return Ok(None);
    }
    if !bits.bit()? {
        return Ok(Some(Form::Bits14));
    }
    if !bits.bit()? {
        return Ok(Some(Form::Bits17));
    }
    if !bits.bit()? {
        return Ok(Some(Form::Bits20));
    }
    Ok(Some(Form::Bits64))
}

#[tactic(auto, unfolding(crate::specs::Reading::window_at))]
fn read_window(bits: &mut Bits<'_>) -> Result<Window, XorError>
    ensures exact { ReadsFront (λ w. w) (window_at bits.old) result bits.new }
    ensures window { IfOk result IsWindow }
{
    let leading = bits.bits(5)?;
    let told = bits.bits(6)?;
    let len = if told == 0 { 64 } else { told };
    if leading + len > 64 {
        return Err(XorError::Window);
    }
    Ok(Window {
        leading: leading as u32,
        significant: len as u32,
    })
}

// The window of a value that differs: a new one, or the one that was last told.
#[tactic(auto, unfolding(crate::specs::Reading::scope_at))]
fn read_scope(bits: &mut Bits<'_>, window: Window) -> Result<Window, XorError>
    requires { IsWindow window }
    ensures exact { ReadsFront (λ w. w) (scope_at window bits.old) result bits.new }
    ensures window { IfOk result IsWindow }
{
    if bits.bit()? {
        return read_window(bits);
    }
    Ok(window)
}

// The next value, and the window that is told with it or was told before.
#[tactic(auto, unfolding(crate::specs::Reading::difference_at))]
fn read_difference(
    bits: &mut Bits<'_>,
    value: u64,
    window: Window,
) -> Result<(u64, Window), XorError>
    requires { IsWindow window }
    ensures exact { ReadsFront (λ x. x) (difference_at value window bits.old) result bits.new }
    ensures window { IfOk result (λ x. IsWindow x.1) }
{
    if !bits.bit()? {
        return Ok((value, window));
    }
    let scope = read_scope(bits, window)?;
    let raw = bits.bits(scope.significant)?;
    Ok((with_difference(scope, value, raw), scope))
}

// The value that differs from this one by `raw` in a window.
fn with_difference(window: Window, value: u64, raw: u64) -> u64
    requires window { IsWindow window }
    requires few { raw < 2 ^ window.significant }
    ensures { result ≡ with_difference window value raw }
{
    value ^ (raw << (64 - (window.leading + window.significant)))
}

// The greatest raw number that stands for itself.
fn greatest(form: Form) -> u64
    ensures { result ≡ greatest form }
{
    match form {
        Form::Bits14 => 0x2000,
        Form::Bits17 => 0x1_0000,
        Form::Bits20 => 0x8_0000,
        Form::Bits64 => 0x7fff_ffff_ffff_ffff,
    }
}

fn all_ones(form: Form) -> u64
    ensures { result + 1 ≡ 2 ^ width form }
{
    match form {
        Form::Bits14 => 0x3fff,
        Form::Bits17 => 0x1_ffff,
        Form::Bits20 => 0xf_ffff,
        Form::Bits64 => 0xffff_ffff_ffff_ffff,
    }
}

// The change that a raw number stands for.
fn signed(form: Form, raw: u64) -> i64
    requires { raw < 2 ^ width form }
    ensures { result ≡ signed form raw }
{
    if raw > greatest(form) {
        -1 - (all_ones(form) - raw) as i64
    } else {
        raw as i64
    }
}

#[tactic(auto, unfolding(crate::specs::Reading::change_at))]
fn read_change(bits: &mut Bits<'_>) -> Result<i64, XorError>
    ensures { ReadsFront (λ z. z) (change_at bits.old) result bits.new }
{
    let Some(form) = read_form(bits)? else {
        return Ok(0);
    };
    let raw = bits.bits(width(form))?;
    Ok(signed(form, raw))
}

#[tactic(auto, unfolding(crate::specs::Reading::next_time))]
fn next_time(time: i64, step: i128) -> Result<i64, XorError>
    requires { IsTime time }
    ensures exact { Answers (λ t. t) result (next_time time step) }
    ensures time { IfOk result (λ t. IsTime t
        × (step ≤ℤ pos 0x7fff_ffff_ffff_ffff) × (pos 0 <ℤ step)) }
{
    if step <= 0 {
        return Err(XorError::NotAscending);
    }
    if step > i128::from(MAX_TIME - time) {
        return Err(XorError::OutOfRange);
    }
    Ok(time + step as i64)
}

/// Reads the value of the next sample, to which the step is known.
#[tactic(auto, unfolding(crate::specs::Reading::value_at))]
pub fn read_value(bits: &mut Bits<'_>, state: State, step: i128) -> Result<State, XorError>
    requires { IsState state }
    ensures exact { ReadsFront (λ s. s) (value_at state step bits.old) result bits.new }
    ensures state { IfOk result IsState }
{
    let time = next_time(state.time, step)?;
    let (value, window) = read_difference(bits, state.value, state.window)?;
    Ok(State {
        time,
        step: step as i64,
        value,
        window,
    })
}

// Two numbers of 64 bits, which may add up to more.
fn sum(step: i64, change: i64) -> i128
    ensures { result ≡ step +ℤ change }
{
    i128::from(step) + i128::from(change)
}

/// Reads the next sample: how the step to it changes, then its value.
#[tactic(auto, unfolding(crate::specs::Reading::step_at))]
pub fn read_step(bits: &mut Bits<'_>, state: State) -> Result<State, XorError>
    requires { IsState state }
    ensures exact { ReadsFront (λ s. s) (step_at state bits.old) result bits.new }
    ensures state { IfOk result IsState }
{
    let change = read_change(bits)?;
    let next = read_value(bits, state, sum(state.step, change))?;
    Ok(next)
}
