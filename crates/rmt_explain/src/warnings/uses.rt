//! What a program declares, and what it uses of that.

use crate::grammar::Want;
use crate::reader::Step;
use crate::warnings::{Cause, Warning};
use std::alloc::{AllocError, Global};

/// A name where it is declared.
#[derive(Clone, Copy)]
struct Name<'t> {
    word: &'t [u8],
    position: usize,
}

/// Names that are declared, and names that are used, in the order of the text.
#[derive(Drop)]
struct Names<'t> {
    declared: Vec<Name<'t>>,
    used: Vec<&'t [u8]>,
}

/// What a program declares and uses.
#[derive(Drop)]
pub struct Uses<'t> {
    headers: Names<'t>,
    actions: Names<'t>,
    metadata: Names<'t>,
    /// The actions that assign `out_port`.
    senders: Vec<&'t [u8]>,
    /// The action that is being read.
    action: &'t [u8],
    /// Where `control` stands.
    control: usize,
}

impl<'t> Names<'t> {
    /// No name.
    fn new(alloc: Global) -> Names<'t> {
        Names {
            declared: Vec::new(alloc),
            used: Vec::new(alloc),
        }
    }

    /// Adds a declaration.
    fn declare(&mut self, step: &Step<'t>) -> Result<(), AllocError> {
        self.declared.push(Name {
            word: step.word(),
            position: step.token.start,
        })?;
        Ok(())
    }

    /// Adds a use; one that is the same as the last is left out.
    fn take(&mut self, step: &Step<'t>) -> Result<(), AllocError> {
        let word = step.word();
        match self.used.as_slice().last() {
            Some(last) if *last == word => {}
            _ => self.used.push(word)?,
        }
        Ok(())
    }

    /// Warns of the names from a number on that nothing uses.
    fn warn(
        &self,
        from: usize,
        cause: Cause,
        warnings: &mut Vec<Warning>,
    ) -> Result<(), AllocError> {
        for k in from..self.declared.len() {
            let name = self.declared[k];
            if !is_among(name.word, self.used.as_slice()) {
                warnings.push(Warning {
                    cause,
                    position: name.position,
                })?;
            }
        }
        Ok(())
    }
}

/// Whether a word is among some.
fn is_among(word: &[u8], words: &[&[u8]]) -> bool {
    for other in words {
        if *other == word {
            return true;
        }
    }
    false
}

impl<'t> Uses<'t> {
    /// Nothing.
    pub fn new(alloc: Global) -> Uses<'t> {
        Uses {
            headers: Names::new(alloc),
            actions: Names::new(alloc),
            metadata: Names::new(alloc),
            senders: Vec::new(alloc),
            action: b"".as_slice(),
            control: 0,
        }
    }

    /// Notes a token.
    pub fn note(&mut self, step: &Step<'t>) -> Result<(), AllocError> {
        match step.want {
            Want::HeaderName => self.headers.declare(step),
            Want::NextTarget | Want::CaseTarget | Want::ElseTarget => self.headers.take(step),
            Want::MetaItem if !step.is("}") => self.metadata.declare(step),
            Want::MetaName => self.metadata.take(step),
            Want::ActionName => {
                self.action = step.word();
                self.actions.declare(step)
            }
            Want::ActionsName | Want::DefaultName => self.actions.take(step),
            Want::BodyItem if step.is("out_port") => {
                self.senders.push(self.action)?;
                Ok(())
            }
            Want::Top if step.is("control") => {
                self.control = step.token.start;
                Ok(())
            }
            _ => Ok(()),
        }
    }

    /// Warns of what nothing uses, and of a port that nothing sets.
    pub fn warn(&self, warnings: &mut Vec<Warning>) -> Result<(), AllocError> {
        self.headers.warn(1, Cause::Header, warnings)?;
        self.actions.warn(0, Cause::Action, warnings)?;
        self.metadata.warn(0, Cause::Metadata, warnings)?;
        for sender in self.senders.as_slice() {
            if is_among(sender, self.actions.used.as_slice()) {
                return Ok(());
            }
        }
        warnings.push(Warning {
            cause: Cause::Port,
            position: self.control,
        })?;
        Ok(())
    }
}
