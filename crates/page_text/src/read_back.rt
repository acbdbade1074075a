//! The values that a tree shows, read back.

ghost use Rattle.std.specs.Prelude.{◌≡◌, ◌++◌, IsTrue, IfOk, OnOk};
ghost use Rattle.page_text.specs.Marks.{value_in, values_in};

use crate::piece::Piece;
use crate::value::Value;
use std::alloc::{AllocError, Global};

/// Appends the value that a piece is, if it is one.
fn append_value(values: &mut Vec<Value>, piece: &Piece) -> Result<(), AllocError>
    ensures { OnOk result (values.new.items ≡ values.old.items ++ value_in piece.now) }
{
    match piece {
        Piece::Value(shown) => Ok(values.push(shown.value())?),
        Piece::Open(_, _)
        | Piece::Leaf(_, _)
        | Piece::Close(_)
        | Piece::Word(_)
        | Piece::Text(_)
        | Piece::Number(_)
        | Piece::Integer(_)
        | Piece::Counted(_)
        | Piece::Mark(_)
        | Piece::Line => Ok(()),
    }
}

/// The values of pieces, in their order.
pub fn values_of(alloc: Global, pieces: &[Piece]) -> Result<Vec<Value>, AllocError>
    ensures { IfOk result (λ values. values.items ≡ values_in pieces.now) }
{
    let mut values = Vec::new(alloc);
    for piece in pieces {
        append_value(&mut values, piece)?;
    }
    Ok(values)
}

fn same_value(a: Value, b: Value) -> bool
    ensures { IsTrue result → a ≡ b }
{
    match (a, b) {
        (Value::Whole(m), Value::Whole(n)) | (Value::Double(m), Value::Double(n)) => m == n,
        (Value::Whole(_), Value::Double(_)) | (Value::Double(_), Value::Whole(_)) => false,
    }
}

/// Whether two lists of values are found to be the same, place by place.
pub fn same_values(a: &[Value], b: &[Value]) -> bool
    ensures { IsTrue result → a.now ≡ b.now }
{
    if a.len() != b.len() {
        return false;
    }
    for (at, value) in a.iter().enumerate() {
        if !same_value(*value, b[at]) {
            return false;
        }
    }
    true
}
