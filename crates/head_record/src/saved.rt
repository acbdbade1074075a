//! What is saved of a snapshot.

ghost use Rattle.std.specs.Prelude.{◌≡◌};

use block_folder::Values;
use head::SavedSeries;
use std::marker::Model;

/// Where a block lies. Contracts see it as the two numbers.
#[derive(Clone, Copy, Debug, PartialEq, Eq, Drop)]
pub struct BlockPlace {
    folder: u64,
    tombstones: u64,
}

impl Model for BlockPlace {
    ghost use Rattle.std.specs.Prelude.{ℕ};

    ghost Value = { ℕ × ℕ };

    ghost view = { λ p. (p.folder, p.tombstones) };

    ghost inverse = { λ p. record { folder = p.0; tombstones = p.1 } };
}

impl BlockPlace {
    /// The folder with this number, and this edition of the block's deletions.
    pub fn new(folder: u64, tombstones: u64) -> BlockPlace
        ensures { result ≡ (folder, tombstones) }
    {
        BlockPlace { folder, tombstones }
    }

    /// The number of the folder.
    pub fn folder(self) -> u64
        ensures { result ≡ self.0 }
    {
        self.folder
    }

    /// The number of the edition.
    pub fn tombstones(self) -> u64
        ensures { result ≡ self.1 }
    {
        self.tombstones
    }
}

/// What a journal begins with: what the values mean, a floor, where the blocks lie, and the series
/// of the head in order of creation.
#[derive(Drop)]
pub struct HeadRecord {
    values: Values,
    floor: i64,
    places: Vec<BlockPlace>,
    series: Vec<SavedSeries>,
}

impl Model for HeadRecord {
    ghost use Rattle.head_record.specs.Saved.{Saved};

    ghost Value = { Saved };

    ghost view = { λ h. record {
      values = h.values;
      floor = h.floor;
      places = h.places.items;
      head = h.series.items;
    } };
}

impl HeadRecord {
    /// What is saved of a snapshot whose values mean this, with this floor, blocks at these places
    /// and these series.
    pub fn new(
        values: Values,
        floor: i64,
        places: Vec<BlockPlace>,
        series: Vec<SavedSeries>,
    ) -> HeadRecord
        ensures { result ≡ record {
          values = values;
          floor = floor;
          places = places.items;
          head = series.items;
        } }
    {
        HeadRecord {
            values,
            floor,
            places,
            series,
        }
    }

    /// What the values mean.
    pub fn values(&self) -> Values
        ensures { result ≡ self.now.values }
    {
        self.values
    }

    /// The floor, in milliseconds.
    pub fn floor(&self) -> i64
        ensures { result ≡ self.now.floor }
    {
        self.floor
    }

    /// Where the blocks lie, in their order.
    pub fn places(&self) -> &[BlockPlace]
        ensures { result.now ≡ self.now.places }
    {
        self.places.as_slice()
    }

    /// The series of the head, in order of creation.
    pub fn series(&self) -> &[SavedSeries]
        ensures { result.now ≡ self.now.head }
    {
        self.series.as_slice()
    }

    /// The series of the head, handed over.
    pub fn into_series(self) -> Vec<SavedSeries>
        ensures { result.items ≡ self.head }
    {
        self.series
    }
}
