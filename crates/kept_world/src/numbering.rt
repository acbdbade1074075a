//! Rows as parts.

ghost use Rattle.std.specs.Prelude.{◌≡◌, ◌<◌, ◌≤◌, ◌++◌, [], ◌∷◌, IfOk, OnOk, T, length, map, IsTrue, ◌↔◌};
ghost use Rattle.std.specs.List.{AllByRecursion};
ghost use Rattle.std.specs.Ordering.{int_cmp};
ghost use Rattle.std.specs.FinMap.Entries.{is_sorted};
ghost use Rattle.kept_world.specs.States.{numbered, gathered, max_series};
ghost use Rattle.kept_world.specs.Sound.{AreApart, IsAscending};

use block_walk::Table;
use labels::{LabelSet, Row, Sample, SeriesRef};
use std::alloc::{AllocError, Global};
use std::collections::BTreeMap;
use std::marker::Model;

/// Rows under references from 1 on, in the order in which they came. The times of each ascend.
#[derive(Drop)]
pub(crate) struct Numbering {
    rows: Vec<(SeriesRef, Row)>,
}

impl Model for Numbering {
    ghost use Rattle.std.specs.Prelude.{◌≡◌, List, map};
    ghost use Rattle.std.specs.List.{AllByRecursion};
    ghost use Rattle.labels.specs.Rows.{Row as RowValue};
    ghost use Rattle.kept_world.specs.States.{numbered};
    ghost use Rattle.kept_world.specs.Sound.{IsAscending};

    ghost Value = { List RowValue };

    ghost view = { λ n. map (λ r. r.1) n.rows.items };

    ghost invariant = { λ n. (n.rows.items ≡ numbered 1 (map (λ r. r.1) n.rows.items))
        × AllByRecursion IsAscending (map (λ r. r.1) n.rows.items) };
}

impl Numbering {
    pub(crate) fn new(alloc: Global) -> Numbering
        ensures { result ≡ [] }
    {
        Numbering {
            rows: Vec::new(alloc),
        }
    }

    pub(crate) fn push(&mut self, row: Row) -> Result<(), AllocError>
        requires few { length self.old < max_series }
        requires ascending { IsAscending row }
        ensures { OnOk result (self.new ≡ self.old ++ row ∷ []) }
    {
        let number = self.rows.len() as u32 + 1;
        self.rows.push((SeriesRef::new(number), row))?;
        Ok(())
    }

    /// The part of the rows. No label set stands twice (the caller's condition).
    pub(crate) fn into_table(self) -> Table
        requires few { length self ≤ max_series }
        requires apart { AreApart (map (λ r. r.0) self) }
        ensures { result ≡ numbered 1 self }
    {
        Table::of_series(self.rows)
    }
}

/// Rows in label order, each with a sample. The times of each ascend.
#[derive(Drop)]
pub(crate) struct Leaving {
    rows: BTreeMap<LabelSet, Vec<Sample>>,
}

impl Model for Leaving {
    ghost use Rattle.std.specs.Prelude.{T, List};
    ghost use Rattle.std.specs.List.{AllByRecursion};
    ghost use Rattle.std.specs.FinMap.Entries.{is_sorted};
    ghost use Rattle.labels.specs.Labels.{labels_cmp};
    ghost use Rattle.labels.specs.Rows.{Row as RowValue};
    ghost use Rattle.kept_world.specs.Sound.{IsAscending, rows_in};

    ghost Value = { List RowValue };

    ghost view = { λ l. rows_in l.rows };

    ghost invariant = { λ l. T (is_sorted labels_cmp (rows_in l.rows))
        × AllByRecursion IsAscending (rows_in l.rows) };
}

impl Leaving {
    pub(crate) fn new(alloc: Global) -> Leaving
        ensures { result ≡ [] }
    {
        Leaving {
            rows: BTreeMap::new(alloc),
        }
    }

    pub(crate) fn is_empty(&self) -> bool
        ensures { IsTrue result ↔ (self.now ≡ []) }
    {
        self.rows.is_empty()
    }

    /// Adds a row, if it has a sample.
    pub(crate) fn gather(
        &mut self,
        labels: &LabelSet,
        samples: Vec<Sample>,
    ) -> Result<(), AllocError>
        requires { T (is_sorted int_cmp samples.items) }
        ensures { OnOk result (self.new ≡ gathered labels.now samples.items self.old) }
    {
        if samples.is_empty() {
            return Ok(());
        }
        self.rows.insert(labels.try_clone()?, samples)?;
        Ok(())
    }

    /// The part of the rows.
    pub(crate) fn into_table(self, alloc: Global) -> Result<Table, AllocError>
        requires { length self ≤ max_series }
        ensures { IfOk result (λ part. part ≡ numbered 1 self) }
    {
        let mut rows = self.rows;
        let mut numbering = Numbering::new(alloc);
        while let Some((labels, samples)) = rows.pop_first() {
            numbering.push(Row::new(labels, samples))?;
        }
        Ok(numbering.into_table())
    }
}
