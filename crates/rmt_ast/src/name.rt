//! Names, of any bytes.

ghost use Rattle.std.specs.Prelude.{◌≡◌, ◌<◌, ◌++◌, ◌∷◌, [], length, slice_get, OnOk, OnErr, IfOk, option_copied, IsSome};

use rmt_bits::answer::Bytes;
use rmt_bits::fault::OutOfMemory;
use std::alloc::{AllocError, Global};
use std::marker::Model;

/// A name or a word of a text, as its bytes.
#[derive(Drop, Debug)]
pub struct Name {
    bytes: Bytes,
}

/// Why a name could not be copied: for want of memory alone.
pub type NamesFault = OutOfMemory;

impl Model for Name {
    ghost use Rattle.std.specs.Prelude.{List, ℕ};

    ghost Value = { List ℕ };

    ghost view = { λ n. n.bytes };
}

impl Name {
    /// A name of no bytes. It takes no memory.
    pub fn new(alloc: Global) -> Name
        ensures { result ≡ [] }
    {
        Name {
            bytes: Bytes::new(alloc),
        }
    }

    /// The name that has these bytes. It takes no memory.
    pub fn from_vec(bytes: Vec<u8>) -> Name
        ensures { result ≡ bytes.items }
    {
        Name {
            bytes: Bytes::from_vec(bytes),
        }
    }

    /// Adds a byte at the end. Without memory the name is as before.
    pub fn push(&mut self, byte: u8) -> Result<(), AllocError>
        ensures ok { OnOk result (self.new ≡ self.old ++ byte ∷ []) }
        ensures err { OnErr result (self.new ≡ self.old) }
    {
        self.bytes.push(byte)
    }

    /// How many bytes it has.
    pub fn len(&self) -> usize
        ensures { result ≡ length self.now }
    {
        self.bytes.len()
    }

    /// The byte at a place, from 0 on; None behind the last.
    pub fn get(&self, at: usize) -> Option<&u8>
        ensures found { IsSome result → at < length self.now }
        ensures item { slice_get self.now at ≡ option_copied result }
    {
        self.bytes.get(at)
    }

    /// All its bytes.
    pub fn as_slice(&self) -> &[u8]
        ensures { result.now ≡ self.now }
    {
        self.bytes.as_slice()
    }

    /// An equal name. It is refused for want of memory alone.
    pub fn copy(&self, alloc: Global) -> Result<Name, NamesFault>
        ensures { IfOk result (λ name. name ≡ self.now) }
    {
        let bytes = Vec::from_slice(alloc, self.bytes.as_slice())?;
        Ok(Name::from_vec(bytes))
    }
}
