//! What a damaged chunks file is refused with. Others that are refused stand in `case_files`.

use chunk_reader::Chunks;
use std::alloc::Global;

/// Where each chunk of the worked file begins, which has one sample at time 10.
const WORKED: &[u64] = &[8, 32, 56, 80, 104, 128];

/// The code that a chunk is refused with, or `ok`.
fn code_of_find(chunks: &Chunks, reference: u64, mint: i64, maxt: i64) -> &'static str {
    match chunks.find(reference, mint, maxt) {
        Ok(_) => "ok",
        Err(error) => error.code(),
    }
}

/// The code of the first refusal over the references of the worked file, or `ok`.
pub fn code_of(alloc: Global, file: &[u8]) -> &'static str {
    let Ok(copy) = file.to_vec(alloc) else {
        return "no memory";
    };
    let chunks = match Chunks::open(copy) {
        Ok(chunks) => chunks,
        Err(error) => return error.code(),
    };
    for reference in WORKED {
        let code = code_of_find(&chunks, *reference, 10, 10);
        if code != "ok" {
            return code;
        }
    }
    "ok"
}
