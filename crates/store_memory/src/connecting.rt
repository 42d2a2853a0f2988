//! A connection to a new database in memory.
ghost use Rattle.std.specs.Prelude.{◌≡◌, IfOk, false};
ghost use Rattle.sqlite.specs.Held.{state};
ghost use Rattle.sqlite.specs.Steps.{IsEmpty};
ghost use Rattle.store_memory.specs.Disks.{over_memory};

use crate::disk::MemoryDisk;
use sqlite::{Connection, FileStore, Files, Options};
use std::alloc::{AllocError, Global};

/// A store over files in memory.
pub type MemoryStore = FileStore<MemoryDisk>;

/// A new database without tables, in memory, over files that nothing else has. Takes memory for the
/// pages that the store keeps. An error says that memory was refused.
pub fn connect(alloc: Global) -> Result<Connection<MemoryStore>, AllocError>
    ensures outside { IfOk result (λ conn. conn.in_transaction ≡ false) }
    ensures empty { IfOk result (λ conn. IsEmpty (state over_memory conn)) }
{
    let files = Files {
        log: MemoryDisk::new(alloc),
        db: MemoryDisk::new(alloc),
    };
    match Connection::open_files(alloc, files, Options::new(0)) {
        Ok(conn) => Ok(conn),
        Err(_) => Err(AllocError),
    }
}
