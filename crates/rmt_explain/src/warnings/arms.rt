//! Arms that stand behind one that takes all their outcomes.

use crate::grammar::Want;
use crate::reader::Step;
use std::alloc::{AllocError, Global};

/// An arm of an `apply` that is being read.
#[derive(Clone, Copy)]
struct Arm<'t> {
    /// How many braces were open before it.
    depth: u64,
    /// `hit`, `miss`, or the name of an action.
    word: &'t [u8],
}

/// The arms that were read of the `apply`s that are open.
#[derive(Drop)]
pub struct Arms<'t> {
    depth: u64,
    arms: Vec<Arm<'t>>,
}

impl<'t> Arms<'t> {
    /// No arm.
    pub fn new(alloc: Global) -> Arms<'t> {
        Arms {
            depth: 0,
            arms: Vec::new(alloc),
        }
    }

    /// Notes a token, and answers whether it is an arm that never runs.
    pub fn note(&mut self, step: &Step<'t>) -> Result<bool, AllocError> {
        if step.is("{") {
            self.depth = self.depth.saturating_add(1);
        } else if step.is("}") {
            self.close();
        } else if let Want::Arm = step.want {
            return self.add(step.word());
        }
        Ok(false)
    }

    /// Forgets the arms between the braces that end.
    fn close(&mut self) {
        for _ in 0..self.arms.len() {
            match self.arms.as_slice().last() {
                Some(arm) if arm.depth >= self.depth => {
                    let _ = self.arms.pop();
                }
                _ => break,
            }
        }
        self.depth = self.depth.saturating_sub(1);
    }

    /// Adds an arm, unless an earlier one of its `apply` takes its outcomes, and answers whether one does.
    fn add(&mut self, word: &'t [u8]) -> Result<bool, AllocError> {
        for arm in self.arms.as_slice().iter().rev() {
            if arm.depth != self.depth {
                break;
            }
            if takes(arm.word, word) {
                return Ok(true);
            }
        }
        self.arms.push(Arm {
            depth: self.depth,
            word,
        })?;
        Ok(false)
    }
}

/// Whether an arm takes all outcomes of another.
fn takes(arm: &[u8], other: &[u8]) -> bool {
    arm == other || arm == b"hit".as_slice() && other != b"miss".as_slice()
}
