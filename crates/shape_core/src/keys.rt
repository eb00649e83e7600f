//! The keys of fields: their effective names, and their aliases.
ghost use Rattle.std.specs.Prelude.{◌≡◌, ◌++◌, map, bytes_eq, IfOk, OnOk};
ghost use Rattle.semantics.specs.Registry.{has_pair, key_texts};
ghost use Rattle.shape_core.specs.Names.{texts, own_texts};
ghost use Rattle.shape_types.specs.Shapes.{field_of};

use crate::effective::effective_name;
use crate::names::some_repeat;
use shape_types::{Field, Items, OutOfMemory};
use std::alloc::Global;

/// Two of the fields' keys have one text.
pub fn keys_repeat(alloc: Global, fields: &[Field]) -> Result<bool, OutOfMemory>
    ensures { IfOk result (λ found. found ≡ has_pair bytes_eq (key_texts (map field_of fields.now))) }
{
    let keys = field_keys(alloc, fields)?;
    some_repeat(alloc, keys.as_slice())
}

fn field_keys<'a>(alloc: Global, fields: &'a [Field<'_>]) -> Result<Items<&'a str>, OutOfMemory>
    ensures { IfOk result (λ keys. texts keys ≡ key_texts (map field_of fields.now)) }
{
    let mut keys = Items::new(alloc);
    'fields: for field in fields {
        push_keys(&mut keys, field)?;
    }
    Ok(keys)
}

/// The keys of one field more.
fn push_keys<'a>(keys: &mut Items<&'a str>, field: &'a Field<'_>) -> Result<(), OutOfMemory>
    ensures { OnOk result (texts keys.new ≡ texts keys.old ++ own_texts (field_of field.now)) }
{
    keys.push(effective_name(field))?;
    match &field.alias {
        Some(alias) => keys.push(alias.as_str()),
        None => Ok(()),
    }
}
