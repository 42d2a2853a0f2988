//! Rows: a name and a generation at the front of a line.
ghost use Rattle.std.specs.Prelude.{◌≡◌, Some, None, IfOk, IsErrOf, false};
ghost use Rattle.std.specs.Str.{bytes_eq};
ghost use Rattle.sbat.specs.Fields.{fields_of, sbat};
ghost use Rattle.sbat.specs.Levels.{level_row};
ghost use Rattle.sbat.specs.Rows.{image_row, row_in};

use crate::component::Component;
use crate::field::{first_field, has_few_fields};
use crate::generation::Generation;
use crate::name::{ComponentName, NameFault};
use std::alloc::Global;

/// The component of the first two fields of a line, or Form.
fn read_row(alloc: Global, line: &[u8]) -> Result<Component, NameFault>
    ensures ok { IfOk result (λ row. row_in (fields_of line.now) ≡ Some row) }
    ensures form { IsErrOf result NameFault.Form → row_in (fields_of line.now) ≡ None }
{
    let (name, rest) = first_field(line);
    let Some(rest) = rest else {
        return Err(NameFault::Form);
    };
    let (number, _) = first_field(rest);
    let Some(generation) = Generation::parse(number) else {
        return Err(NameFault::Form);
    };
    let name = ComponentName::parse(alloc, name)?;
    Ok(Component { name, generation })
}

/// The component of an image's line, or Form.
pub(crate) fn read_image_row(alloc: Global, line: &[u8]) -> Result<Component, NameFault>
    ensures ok { IfOk result (λ row. image_row line.now ≡ Some row) }
    ensures form { IsErrOf result NameFault.Form → image_row line.now ≡ None }
{
    if has_few_fields(line) {
        return Err(NameFault::Form);
    }
    read_row(alloc, line)
}

/// The component of a level's line after the first, or Form.
pub(crate) fn read_level_row(alloc: Global, line: &[u8]) -> Result<Component, NameFault>
    ensures ok { IfOk result (λ row. level_row line.now ≡ Some row) }
    ensures other { IfOk result (λ row. bytes_eq row.name sbat ≡ false) }
    ensures form { IsErrOf result NameFault.Form → level_row line.now ≡ None }
{
    let row = read_row(alloc, line)?;
    if row.name.is_sbat() {
        return Err(NameFault::Form);
    }
    Ok(row)
}
