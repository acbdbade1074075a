//! The references of one pair, which versions share.

ghost use Rattle.std.specs.Prelude.{◌≡◌, ◌<◌, ◌≤◌, [], ◌∷◌, ◌++◌, length, take, drop, IfOk, OnOk};
ghost use Rattle.std.specs.Prelude.{OnErr};

use labels::SeriesRef;
use pages::PagedList;
use std::alloc::{AllocError, Global};
use std::marker::Model;

/// How many references a full piece has: a leaf of the pages, or all of them before there are
/// pages.
const PIECE: usize = 256;

type Pages = PagedList<u32, PIECE>;

#[derive(Drop)]
enum Held {
    Few(Vec<u32>),
    Many(Pages),
}

/// The references of the series that carry a pair, in the order in which they were added.
///
/// Clauses see the plain list. Up to 256 stand in one piece: most pairs have a few, and pages would
/// take some 250 bytes more for each. Longer lists stand in pages that versions share: a version
/// that adds a reference copies a page of each level, and no more.
#[derive(Drop)]
pub struct References {
    held: Held,
}

impl Model for References {
    ghost use Rattle.std.specs.Prelude.{ℕ, List};
    ghost use Rattle.head.specs.declared.references.Held.TheVariants.{Few, Many};

    ghost Value = { List ℕ };

    ghost view = { λ r. elim r.held [ Few few ↦ few.items | Many pages ↦ pages ] };
}

fn copy_references(alloc: Global, references: &[u32]) -> Result<Vec<u32>, AllocError>
    ensures { IfOk result (λ copy. copy.items ≡ references.now) }
{
    let mut copy = Vec::new(alloc);
    copy.extend_from_slice(references)?;
    Ok(copy)
}

/// The references in pages, with one more at the end.
fn pages_with(alloc: Global, references: &[u32], more: u32) -> Result<Pages, AllocError>
    ensures { IfOk result (λ pages. pages ≡ references.now ++ more ∷ []) }
{
    let mut pages = PagedList::new(alloc)?;
    for reference in references {
        pages.push(alloc, *reference)?;
    }
    pages.push(alloc, more)?;
    Ok(pages)
}

impl References {
    /// One reference alone.
    pub fn new(alloc: Global, reference: SeriesRef) -> Result<References, AllocError>
        ensures { IfOk result (λ references. references ≡ reference ∷ []) }
    {
        let mut few = Vec::new(alloc);
        few.push(reference.number())?;
        Ok(References {
            held: Held::Few(few),
        })
    }

    /// How many references there are.
    pub fn len(&self) -> usize
        ensures { result ≡ length self.now }
    {
        match &self.held {
            Held::Few(few) => few.len(),
            Held::Many(pages) => pages.len(),
        }
    }

    /// The references from a place to the end of the piece that holds it.
    pub fn piece_from(&self, place: usize) -> &[u32]
        requires { place ≤ length self.now }
        ensures some { place < length self.now → 0 < length result.now }
        ensures front { result.now ≡ take (length result.now) (drop place self.now) }
    {
        match &self.held {
            Held::Few(few) => &few.as_slice()[place..],
            Held::Many(pages) => {
                if place < pages.len() {
                    pages.leaf_from(place)
                } else {
                    &[]
                }
            }
        }
    }

    /// Adds a reference at the end.
    pub fn push(&mut self, alloc: Global, reference: SeriesRef) -> Result<(), AllocError>
        ensures ok { OnOk result (self.new ≡ self.old ++ reference ∷ []) }
        ensures err { OnErr result (self.new ≡ self.old) }
    {
        match &mut self.held {
            Held::Few(few) if few.len() < PIECE => few.push(reference.number())?,
            Held::Few(few) => {
                let pages = pages_with(alloc, few.as_slice(), reference.number())?;
                self.held = Held::Many(pages);
            }
            Held::Many(pages) => pages.push(alloc, reference.number())?,
        }
        Ok(())
    }

    /// The same references: a copy of one piece, or the same pages.
    pub fn try_clone(&self, alloc: Global) -> Result<References, AllocError>
        ensures { IfOk result (λ references. references ≡ self.now) }
    {
        match &self.held {
            Held::Few(few) => Ok(References {
                held: Held::Few(copy_references(alloc, few.as_slice())?),
            }),
            Held::Many(pages) => Ok(References {
                held: Held::Many(pages.try_clone()?),
            }),
        }
    }
}
