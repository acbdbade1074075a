//! What is known of the blocks in directories.

ghost use Rattle.std.specs.Prelude.{IfOk, IfErr};
ghost use Rattle.audit_command.specs.Reading.{paths_of, IsReadingFault};
ghost use Rattle.audit_command.specs.Walking.{IsTableAt, AreTablesAt, IsFirstFault};

use crate::fault::Fault;
use crate::files::{ReadFiles, read_block};
use crate::walking::{OneThread, Walker};
use auditor::BlockTable;
use std::alloc::Global;

/// Reads the files in a directory, and then walks them.
fn table_at<K: Walker, F: ReadFiles>(
    walker: &K,
    alloc: Global,
    files: &F,
    directory: &str,
) -> Result<BlockTable, Fault>
    requires ready { K.is_ready walker.now }
    ensures ok { IfOk result (λ table. IsTableAt (F.may_read files.now) directory.now table) }
    ensures err { IfErr result
        (λ fault. IsReadingFault (F.may_read files.now) directory.now fault) }
{
    let block = read_block(alloc, files, directory)?;
    Ok(walker.walk(alloc, block)?)
}

/// What is known of the blocks in these directories, in their order, up to the first that cannot be
/// read.
///
/// A block whose files are refused is none that cannot be read: its refusal is kept. What is known
/// is of the whole files, though of one that is too long only the bytes that show it are read.
pub fn tables_by<K: Walker, F: ReadFiles>(
    walker: &K,
    alloc: Global,
    files: &F,
    directories: &[&str],
) -> Result<Vec<BlockTable>, Fault>
    requires ready { K.is_ready walker.now }
    ensures ok { IfOk result
        (λ tables. AreTablesAt (F.may_read files.now) (paths_of directories.now) tables.items) }
    ensures err { IfErr result
        (λ fault. IsFirstFault (F.may_read files.now) (paths_of directories.now) fault) }
{
    let mut tables = Vec::new(alloc);
    for directory in directories {
        let table = table_at(walker, alloc, files, directory)?;
        tables.push(table)?;
    }
    Ok(tables)
}

/// The same by the calling thread alone.
pub fn tables_at<F: ReadFiles>(
    alloc: Global,
    files: &F,
    directories: &[&str],
) -> Result<Vec<BlockTable>, Fault>
    ensures ok { IfOk result
        (λ tables. AreTablesAt (F.may_read files.now) (paths_of directories.now) tables.items) }
    ensures err { IfErr result
        (λ fault. IsFirstFault (F.may_read files.now) (paths_of directories.now) fault) }
{
    tables_by(&OneThread, alloc, files, directories)
}
