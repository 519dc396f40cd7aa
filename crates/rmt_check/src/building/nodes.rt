//! The nodes of the control.

ghost use Rattle.std.specs.Prelude.{◌≡◌, ◌<◌, length};
ghost use Rattle.rmt_check.specs.Names.{nodes_of};
ghost use Rattle.rmt_check.specs.Meaning.{guard_of, node_of, what_of};
ghost use Rattle.rmt_check.specs.Naming.{IsUnder};
ghost use Rattle.rmt_check.specs.Sizes.{IsSized};

use crate::building::known::{field_number, number_among};
use crate::building::mapped::Build;
use crate::building::outcomes::mask_in;
use crate::building::values::test_at;
use crate::names::lookup::{Lookup, key};
use crate::rules::parts;
use crate::source::{NodeText, Under, ValueText, WhatText};
use rmt_ast::program::{Guard, Node, What};
use std::alloc::{AllocError, Global};

fn guard_of<N: Lookup>(names: &N, under: &Under) -> Guard
    requires sized { IsSized (N.text names.now) }
    requires within { under.now.parent < length (nodes_of (N.text names.now)) }
    ensures { result ≡ guard_of (N.text names.now) under.now }
{
    let mask = match parts::nodes_of(names.source()).get(under.parent) {
        Some(node) => mask_in(names, &node.what, under.arm),
        None => 0,
    };
    Guard {
        parent: under.parent as u32,
        mask,
    }
}

fn what_of<N: Lookup>(names: &N, what: &WhatText) -> What
    requires { IsSized (N.text names.now) }
    ensures { result ≡ what_of (N.text names.now) what.now }
{
    match what {
        WhatText::Apply { table, .. } => What::Apply(number_among(
            names.tables(),
            table.name.as_slice(),
        )),
        WhatText::If { field, mask, value } => {
            let value = ValueText {
                value: *value,
                mask: *mask,
            };
            What::Gate {
                field: field_number(names, field),
                test: test_at(names, key(names, field), &value),
            }
        }
    }
}

/// A node, which stands in an arm of one of the nodes, if in any.
impl<N: Lookup> Build<N, NodeText> for Node {
    ghost fits = { λ names node. IsSized (N.text names) × IsUnder (length (nodes_of (N.text names))) node.under };

    ghost meant = { λ names node. node_of (N.text names) node };

    fn build(_alloc: Global, names: &N, node: &NodeText) -> Result<Node, AllocError> {
        let guard = match &node.under {
            Some(under) => Some(guard_of(names, under)),
            None => None,
        };
        Ok(Node {
            guard,
            what: what_of(names, &node.what),
        })
    }
}
