//! Tables.

ghost use Rattle.std.specs.Prelude.{⊤};
ghost use Rattle.rmt_check.specs.Names.{named};
ghost use Rattle.rmt_check.specs.Meaning.{action_number, field_number, table_of};
ghost use Rattle.rmt_check.specs.Sizes.{IsSized, IsSizedTable};

use crate::building::known::{action_number, field_number};
use crate::building::mapped::{Build, mapped};
use crate::names::lookup::Lookup;
use crate::pairs::both;
use crate::reading::words::copy_name;
use crate::rules::parts::{key_fields, listed};
use crate::source::{FieldText, Ident, Number, TableText};
use rmt_ast::program::{Kind, Table};
use std::alloc::{AllocError, Global};

/// The number of a field of a key.
impl<N: Lookup> Build<N, FieldText> for u32 {
    ghost fits = { λ names field. IsSized (N.text names) };

    ghost meant = { λ names field. field_number (N.text names) (named (N.text names) field) };

    fn build(_alloc: Global, names: &N, field: &FieldText) -> Result<u32, AllocError> {
        Ok(field_number(names, field))
    }
}

/// The number of an action that a table lists.
impl<N: Lookup> Build<N, Ident> for u32 {
    ghost fits = { λ names action. IsSized (N.text names) };

    ghost meant = { λ names action. action_number (N.text names) action };

    fn build(_alloc: Global, names: &N, action: &Ident) -> Result<u32, AllocError> {
        Ok(action_number(names, action))
    }
}

/// An argument of a table's default.
impl Build<(), Number> for u128 {
    ghost fits = { λ _ number. ⊤ };

    ghost meant = { λ _ number. number.value };

    fn build(_alloc: Global, _shared: &(), number: &Number) -> Result<u128, AllocError> {
        Ok(number.value)
    }
}

/// A table with the numbers of what it names.
impl<N: Lookup> Build<N, TableText> for Table {
    ghost fits = { λ names table. IsSized (N.text names) × IsSizedTable table };

    ghost meant = { λ names table. table_of (N.text names) table };

    fn build(alloc: Global, names: &N, table: &TableText) -> Result<Table, AllocError> {
        let ((name, args), (key, actions)) = both(
            both(
                copy_name(alloc, &table.ident.name),
                mapped(alloc, &(), table.args.as_slice()),
            ),
            both(
                mapped(alloc, names, key_fields(table)),
                mapped(alloc, names, listed(table)),
            ),
        )?;
        let default = action_number(names, &table.default);
        let (kind, size, counted) = match &table.key {
            Some(key) => (key.kind, key.size.value as u32, key.counted),
            None => (Kind::Keyless, 0, false),
        };
        Ok(Table {
            name,
            kind,
            key,
            actions,
            default,
            args,
            size,
            counted,
        })
    }
}
