//! The tokens of a program's text, each with the place of the grammar before it.

use crate::grammar::{Walk, Want};
use crate::scan::{Token, token_from};
use std::alloc::Global;

/// A token, and what might stand in its place.
#[derive(Clone, Copy)]
pub struct Step<'t> {
    pub want: Want,
    pub token: Token<'t>,
}

impl<'t> Step<'t> {
    /// The token's bytes.
    pub fn word(&self) -> &'t [u8] {
        self.token.word
    }

    /// Whether the token is this one.
    pub fn is(&self, word: &str) -> bool {
        self.token.word == word.as_bytes()
    }
}

/// A reader of a text's tokens, up to the first that may not stand where it does.
#[derive(Drop)]
pub struct Reader<'t> {
    text: &'t [u8],
    walk: Walk,
    at: usize,
}

impl<'t> Reader<'t> {
    /// A reader before the first token.
    pub fn new(alloc: Global, text: &'t [u8]) -> Reader<'t> {
        Reader {
            text,
            walk: Walk::new(alloc),
            at: 0,
        }
    }

    /// What may stand next.
    pub fn want(&self) -> Want {
        self.walk.want()
    }

    /// The next token; none at the end, and where it may not stand there.
    pub fn next(&mut self) -> Option<Step<'t>> {
        let token = token_from(self.text, self.at)?;
        let want = self.walk.want();
        if self.walk.take(token.word) {
            self.at = token.end;
            Some(Step { want, token })
        } else {
            None
        }
    }

    /// The next token, where it begins before a position.
    pub fn next_before(&mut self, position: usize) -> Option<Step<'t>> {
        let token = token_from(self.text, self.at)?;
        if token.start < position {
            self.next()
        } else {
            None
        }
    }
}
