//! The names that an action declares.

ghost use Rattle.std.specs.Prelude.{◌≡◌, find, IfOk, option_copied};
ghost use Rattle.std.specs.Str.{bytes_eq};
ghost use Rattle.rmt_check.specs.Parts.{Declared};
ghost use Rattle.rmt_check.specs.Names.{param_names, param_width};

use crate::names::lists;
use crate::source::{ActionText, Declared};
use rmt_ast::name_list::NameList;
use std::alloc::{AllocError, Global};
use std::marker::Model;

/// An action with its parameters, for look-ups. Contracts see it as the action.
#[derive(Drop)]
pub struct ActionNames<'a> {
    action: &'a ActionText,
    params: NameList<'a>,
}

impl<'a> Model for ActionNames<'a> {
    ghost use Rattle.std.specs.Prelude.{◌≡◌};
    ghost use Rattle.rmt_check.specs.Parts.{ActionText};
    ghost use Rattle.rmt_check.specs.Names.{param_names};

    ghost Value = { ActionText };

    ghost view = { λ a. a.action.now };

    ghost invariant = { λ a. a.params ≡ param_names a.action.now };
}

impl<'a> ActionNames<'a> {
    /// The names of an action.
    pub fn of(alloc: Global, action: &'a ActionText) -> Result<ActionNames<'a>, AllocError>
        ensures names { IfOk result (λ a. a ≡ action.now) }
    {
        let params = lists::names_of(alloc, action.params.as_slice())?;
        Ok(ActionNames { action, params })
    }

    /// The parameters by name.
    pub fn params(&self) -> &NameList<'a>
        ensures { result.now ≡ param_names self.now }
    {
        &self.params
    }

    /// The first parameter of a name.
    fn param(&self, name: &[u8]) -> Option<&'a Declared>
        ensures { option_copied result ≡ find (λ (d : Declared). bytes_eq name.now d.ident.name) self.now.params }
    {
        lists::first_named(&self.params, &self.action.params, name)
    }

    /// The width of a parameter, and 0 for a name that is none.
    pub fn width(&self, name: &[u8]) -> u128
        ensures { result ≡ param_width self.now name.now }
    {
        match self.param(name) {
            Some(param) => param.width.value,
            None => 0,
        }
    }
}

/// The names of a text, and those of one of its actions.
pub type InAction<'a, N> = (&'a N, ActionNames<'a>);
