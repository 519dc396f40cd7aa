//! Parts of a text that several rules look at.

ghost use Rattle.std.specs.Prelude.{◌≡◌, IfOk, map};
ghost use Rattle.std.specs.List.{flat_map};
ghost use Rattle.rmt_check.specs.Names as words;
ghost use Rattle.rmt_check.specs.Rules as rules;

use crate::source::{
    ArmText, Declared, FieldText, Ident, MetaText, NodeText, Source, TableText, TargetText,
};
use std::alloc::{AllocError, Global};
use std::slice;

/// The nodes of the control, of which there are none without one.
pub fn nodes_of(source: &Source) -> &[NodeText]
    ensures { result.now ≡ words.nodes_of source.now }
{
    match &source.control {
        Some(nodes) => nodes.as_slice(),
        None => &[],
    }
}

/// The actions that a table lists.
pub fn listed(table: &TableText) -> &[Ident]
    ensures { result.now ≡ words.listed table.now }
{
    match &table.key {
        Some(key) => key.actions.as_slice(),
        None => &[],
    }
}

/// The fields of a table's key, none for a table without one.
pub fn key_fields(table: &TableText) -> &[FieldText]
    ensures { result.now ≡ words.key_fields table.now }
{
    match &table.key {
        Some(key) => key.fields.as_slice(),
        None => &[],
    }
}

/// All metadata fields.
pub fn metadata(alloc: Global, metas: &[MetaText]) -> Result<Vec<&Declared>, AllocError>
    ensures { IfOk result (λ fields. map (λ f. f.now) fields.items ≡ flat_map (λ m. m.fields) metas.now) }
{
    let mut fields = Vec::new(alloc);
    for meta in metas {
        for field in meta.fields.as_slice() {
            fields.push(field)?;
        }
    }
    Ok(fields)
}

/// The header that a target names, if it names one.
pub fn target_names(target: &TargetText) -> &[Ident]
    ensures { result.now ≡ rules.target_names target.now }
{
    match target {
        TargetText::Header(header) => slice::from_ref(header),
        TargetText::Accept | TargetText::Reject => &[],
    }
}

/// The action that an arm names, if it names one.
pub fn arm_names(arm: &ArmText) -> &[Ident]
    ensures { result.now ≡ rules.arm_names arm.now }
{
    match arm {
        ArmText::Action(action) => slice::from_ref(action),
        ArmText::Hit | ArmText::Miss => &[],
    }
}
