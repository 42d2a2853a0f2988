//! An optional row, appended to others.
ghost use Rattle.std.specs.Prelude.{◌≡◌, ◌++◌, OnOk};
ghost use Rattle.store_reads.specs.Reads.{listed};

use store_reads::ReadFault;

/// Appends the row, if there is one. `NoMemory`: memory was refused.
pub(crate) fn push_some<T: Drop>(rows: &mut Vec<T>, row: Option<T>) -> Result<(), ReadFault>
    ensures { OnOk result (rows.new.items ≡ rows.old.items ++ listed row) }
{
    let Some(row) = row else {
        return Ok(());
    };
    if rows.push(row).is_err() {
        return Err(ReadFault::NoMemory);
    }
    Ok(())
}
