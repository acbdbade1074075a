//! A reply, taken apart.

ghost use Rattle.std.specs.Prelude.{◌≡◌, map, IfOk};
ghost use Rattle.std.specs.List.{flat_map};
ghost use Rattle.auditor.specs.Judgements.{answers_of};
ghost use Rattle.page_claims.specs.Judging.{names_of, place_of, told_name};

use auditor::{Reply, ToldPart};
use cover::PartAnswer;
use labels::Row;
use std::alloc::{AllocError, Global};

/// What was done with a part.
#[derive(Clone, Copy, Debug, PartialEq, Eq, Drop)]
pub enum Place {
    /// It was searched: the next of the answers is its own.
    Searched,
    /// The block of this number, from 0, was skipped.
    Skipped(usize),
}

/// A reply: what was done with each part, in order, the answers of those that were searched, and
/// the rows of all.
#[derive(Drop)]
pub struct Told {
    pub places: Vec<Place>,
    pub answers: Vec<PartAnswer>,
    pub rows: Vec<Row>,
}

fn apart(alloc: Global, reply: Reply) -> Result<Told, AllocError>
    ensures places { IfOk result (λ told. told.places.items ≡ map place_of reply.parts.items) }
    ensures answers { IfOk result
        (λ told. told.answers.items ≡ flat_map answers_of reply.parts.items) }
    ensures rows { IfOk result (λ told. told.rows ≡ reply.rows) }
{
    let Reply { parts, rows } = reply;
    let mut places = Vec::with_capacity(alloc, parts.len())?;
    let mut answers = Vec::new(alloc);
    for part in parts {
        match part {
            ToldPart::Searched(answer) => {
                places.push(Place::Searched)?;
                answers.push(answer)?;
            }
            ToldPart::Skipped(number) => places.push(Place::Skipped(number))?,
        }
    }
    Ok(Told {
        places,
        answers,
        rows,
    })
}

impl Told {
    /// A reply, taken apart.
    #[tactic(auto, using(crate::proofs::Names::names_apart))]
    pub fn of(alloc: Global, reply: Reply) -> Result<Told, AllocError>
        ensures places { IfOk result (λ told. told.places.items ≡ map place_of reply.parts.items) }
        ensures answers { IfOk result
            (λ told. told.answers.items ≡ flat_map answers_of reply.parts.items) }
        ensures rows { IfOk result (λ told. told.rows ≡ reply.rows) }
        ensures names { IfOk result
            (λ told. names_of told ≡ map told_name reply.parts.items) }
    {
        let told = apart(alloc, reply)?;
        Ok(told)
    }
}
