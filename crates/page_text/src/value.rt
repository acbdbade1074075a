//! Values of samples, and their texts.

ghost use Rattle.std.specs.Prelude.{◌≡◌, ◌++◌, ℕ, List, IfOk, OnOk};
ghost use Rattle.page_text.specs.Values.{IsDoubleText, IsValueText, value_of};

use crate::numbers::append_integer;
use double_text::append_double;
use std::alloc::{AllocError, Global};
use stored_doubles::restored;

/// What the values of samples mean.
#[derive(Clone, Copy, Debug, PartialEq, Eq, Drop)]
pub enum Values {
    /// The whole numbers that they are.
    Whole,
    /// The doubles for which they are kept (`stored_doubles`).
    Doubles,
}

impl Values {
    /// A number as a value of this meaning.
    pub fn of(self, number: i64) -> Value
        ensures { result ≡ value_of self number }
    {
        match self {
            Values::Whole => Value::Whole(number),
            Values::Doubles => Value::Double(number),
        }
    }
}

/// A value of a sample.
#[derive(Clone, Copy, Debug, PartialEq, Eq, Drop)]
pub enum Value {
    /// A whole number.
    Whole(i64),
    /// A double, by the number that is kept for it.
    Double(i64),
}

/// Appends the text of the double for which a number is kept.
fn append_restored(alloc: Global, out: &mut Vec<u8>, number: i64) -> Result<(), AllocError>
    ensures { OnOk result ((text : List ℕ) × (out.new.items ≡ out.old.items ++ text)
        × IsDoubleText number text) }
{
    append_double(alloc, out, restored(number))
}

/// The text of a value.
fn text_of(alloc: Global, value: Value) -> Result<Vec<u8>, AllocError>
    ensures { IfOk result (λ text. IsValueText value text.items) }
{
    let mut text = Vec::new(alloc);
    match value {
        Value::Whole(number) => append_integer(&mut text, number)?,
        Value::Double(number) => append_restored(alloc, &mut text, number)?,
    }
    Ok(text)
}

/// A value with its text: a whole number in decimal, a double as Prometheus prints it.
#[derive(Drop)]
pub struct ValueText {
    value: Value,
    text: Vec<u8>,
    ghost is: { ∥ IsValueText value text.items ∥₁ },
}

impl ValueText {
    /// A value with its text.
    pub fn new(alloc: Global, value: Value) -> Result<ValueText, AllocError>
        ensures { IfOk result (λ made. made.value ≡ value) }
    {
        let text = text_of(alloc, value)?;
        Ok(ValueText { value, text })
    }

    /// The value.
    pub fn value(&self) -> Value
        ensures { result ≡ self.now.value }
    {
        self.value
    }

    /// Its text.
    pub fn text(&self) -> &[u8]
        ensures { result.now ≡ self.now.text.items }
    {
        self.text.as_slice()
    }
}
