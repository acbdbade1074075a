//! An index of any symbols, bodies and lists, whose checksums are right.

use std::alloc::{AllocError, Global};
use wire::{crc32c, put_be32, put_be64, put_bytes, put_u8, put_uvarint};

pub fn put_len(out: &mut Vec<u8>, len: usize) -> Result<(), AllocError> {
    put_be32(out, u32::try_from(len).unwrap_or(0))
}

pub fn put_frame(out: &mut Vec<u8>, content: &[u8]) -> Result<(), AllocError> {
    put_len(out, content.len())?;
    put_bytes(out, content)?;
    put_be32(out, crc32c(content))
}

pub fn put_text(out: &mut Vec<u8>, text: &str) -> Result<(), AllocError> {
    put_uvarint(out, text.len() as u64)?;
    put_bytes(out, text.as_bytes())
}

/// Adds zeros up to the next multiple of 16.
pub fn align(file: &mut Vec<u8>) -> Result<(), AllocError> {
    for _ in 0..16 {
        if file.len() % 16 != 0 {
            put_u8(file, 0)?;
        }
    }
    Ok(())
}

/// The bytes so far, the entries of the table of offsets, and the table of contents.
#[derive(Drop)]
pub struct Draft {
    pub file: Vec<u8>,
    table: Vec<u8>,
    listed: usize,
    /// Where symbols, series, label indices, the table of those, postings and their table begin.
    pub contents: [u64; 6],
}

impl Draft {
    /// An index of these symbols, whose series begin behind them.
    pub fn new(alloc: Global, symbols: &[&str]) -> Result<Draft, AllocError> {
        let mut content = Vec::new(alloc);
        put_len(&mut content, symbols.len())?;
        for symbol in symbols {
            put_text(&mut content, symbol)?;
        }
        let mut file = Vec::new(alloc);
        put_bytes(&mut file, &[0xBA, 0xAA, 0xD7, 0x00, 0x02])?;
        put_frame(&mut file, &content)?;
        let series = file.len() as u64;
        Ok(Draft {
            file,
            table: Vec::new(alloc),
            listed: 0,
            contents: [5, series, 0, 0, 0, 0],
        })
    }

    /// Adds a series, whose body is spelled by these numbers, at the next multiple of 16, and
    /// gives its reference.
    pub fn series(&mut self, alloc: Global, numbers: &[u64]) -> Result<u32, AllocError> {
        let mut body = Vec::new(alloc);
        for number in numbers {
            put_uvarint(&mut body, *number)?;
        }
        align(&mut self.file)?;
        let reference = u32::try_from(self.file.len() / 16).unwrap_or(0);
        put_uvarint(&mut self.file, body.len() as u64)?;
        put_bytes(&mut self.file, &body)?;
        put_be32(&mut self.file, crc32c(&body))?;
        Ok(reference)
    }

    /// Adds a list of these references, which each of the pairs has. The first list begins the
    /// postings, where they have not begun.
    pub fn list(
        &mut self,
        alloc: Global,
        pairs: &[(&str, &str)],
        references: &[u32],
    ) -> Result<(), AllocError> {
        let place = self.file.len() as u64;
        if self.contents[4] == 0 {
            self.contents[4] = place;
        }
        let mut list = Vec::new(alloc);
        put_len(&mut list, references.len())?;
        for reference in references {
            put_be32(&mut list, *reference)?;
        }
        put_frame(&mut self.file, &list)?;
        for (name, value) in pairs {
            put_u8(&mut self.table, 2)?;
            put_text(&mut self.table, name)?;
            put_text(&mut self.table, value)?;
            put_uvarint(&mut self.table, place)?;
            self.listed = self.listed.saturating_add(1);
        }
        Ok(())
    }

    /// The file, with its table of offsets and its table of contents.
    pub fn whole(self, alloc: Global) -> Result<Vec<u8>, AllocError> {
        let Draft {
            mut file,
            table,
            listed,
            mut contents,
        } = self;
        contents[5] = file.len() as u64;
        let mut content = Vec::new(alloc);
        put_len(&mut content, listed)?;
        put_bytes(&mut content, &table)?;
        put_frame(&mut file, &content)?;
        let mut places = Vec::new(alloc);
        for place in contents {
            put_be64(&mut places, place)?;
        }
        put_bytes(&mut file, &places)?;
        put_be32(&mut file, crc32c(&places))?;
        Ok(file)
    }
}
