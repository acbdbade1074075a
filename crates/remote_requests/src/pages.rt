//! What the query string of `/page` asks.

ghost use Rattle.remote_requests.specs.Paging.{PageMeans};
ghost use Rattle.remote_requests.specs.Writing.{Told};

use crate::listings::query_text;
use crate::{Asked, ReadError, Refusal};
use page_requests::{QuestionError, read_question};
use std::alloc::Global;

/// What a request for a page asks: `H5`, then `H6`, then `G16`.
pub fn page(alloc: Global, target: &[u8]) -> Result<Asked, ReadError>
    ensures { Told (PageMeans target.now) result }
{
    match read_question(alloc, query_text(target)) {
        Ok(question) => Ok(Asked::Page(question)),
        Err(QuestionError::Memory) => Err(ReadError::Memory),
        Err(QuestionError::Refused(refusal)) => Err(ReadError::Refused(Refusal::BadPage(refusal))),
    }
}
