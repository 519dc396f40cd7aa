//! The names of tables and actions, and the ranks of their entries.

ghost use Rattle.std.specs.Prelude.{◌≡◌, ◌++◌, ◌<◌, ◌^◌, length, OnOk};
ghost use Rattle.rmt_config.specs.ImageSpelling.{spelled_name, spelled_action, spelled_rank, spelled_table_kind, spelled_ranks, spelled_table, spelled_names};
ghost use Rattle.rmt_items.specs.CountsFit.{CountsFitAction, CountsFitTable, CountsFitNames};

use crate::writing::spelled::{Spelled, put_four, put_list8, put_list16, put_list32};
use rmt_ast::name::Name;
use rmt_ast::names::{ActionName, Names, RankOf, TableName};
use rmt_ast::program::Kind;
use std::alloc::AllocError;

fn put_name(out: &mut Vec<u8>, name: &Name) -> Result<(), AllocError>
    requires { length name.now < 2 ^ 32 }
    ensures { OnOk result (out.new.items ≡ out.old.items ++ spelled_name name.now) }
{
    put_four(out, name.len() as u32)?;
    out.extend_from_slice(name.as_slice())
}

impl Spelled for ActionName {
    ghost spelling = { spelled_action };

    ghost fits = { CountsFitAction };

    fn put(&self, out: &mut Vec<u8>) -> Result<(), AllocError> {
        put_name(out, &self.name)?;
        put_list8(out, self.params.as_slice())
    }
}

impl Spelled for RankOf {
    ghost spelling = { spelled_rank };

    fn put(&self, out: &mut Vec<u8>) -> Result<(), AllocError> {
        put_four(out, self.number)?;
        put_four(out, self.rank)
    }
}

fn kind_byte(kind: Kind) -> u8
    ensures { result ≡ spelled_table_kind kind }
{
    match kind {
        Kind::Exact => 0,
        Kind::Prefix => 1,
        Kind::Ternary => 2,
        Kind::Keyless => 3,
    }
}

fn put_ranks(out: &mut Vec<u8>, kind: Kind, ranks: &[RankOf]) -> Result<(), AllocError>
    requires { length ranks.now < 2 ^ 32 }
    ensures { OnOk result (out.new.items ≡ out.old.items ++ spelled_ranks kind ranks.now) }
{
    match kind {
        Kind::Ternary => put_list32(out, ranks),
        Kind::Keyless | Kind::Exact | Kind::Prefix => Ok(()),
    }
}

impl Spelled for TableName {
    ghost spelling = { spelled_table };

    ghost fits = { CountsFitTable };

    fn put(&self, out: &mut Vec<u8>) -> Result<(), AllocError> {
        out.push(self.node as u8)?;
        put_name(out, &self.name)?;
        out.push(kind_byte(self.kind))?;
        put_four(out, self.size)?;
        put_list16(out, self.keys.as_slice())?;
        put_list8(out, self.actions.as_slice())?;
        put_ranks(out, self.kind, self.ranks.as_slice())
    }
}

/// The names of tables, where there are names.
pub fn put_names(out: &mut Vec<u8>, names: &Option<Names>) -> Result<(), AllocError>
    requires { CountsFitNames names.now }
    ensures put { OnOk result (out.new.items ≡ out.old.items ++ spelled_names names.now) }
{
    match names {
        None => Ok(()),
        Some(names) => put_list8(out, names.tables.as_slice()),
    }
}
