//! One entry of the parser joined to the entries of the state that it goes to.

ghost use Rattle.std.specs.Prelude.{◌≡◌, ◌<◌, length, IfOk, IfSome, IsTrue};
ghost use Rattle.rmt_config.specs.ParserForm.{parser_is_formed};
ghost use Rattle.rmt_ptcam.specs.Joining.{IsGood, KeepsForm, ParsesAlike, entries_in, join_named, join_of};

pub(crate) mod entry_rows;
pub(crate) mod in_place;
pub(crate) mod lookups;
pub(crate) mod rows;

use crate::fault::JoinFault;
use crate::joining::in_place::join_in;
use crate::joining::rows::{flattened, grouped};
use crate::joins::Join;
use rmt_bits::answer::Bytes;
use rmt_config::config::{ParserConfig, ParserEntry};
use std::alloc::{AllocError, Global};

/// How many entries a state has.
pub fn count_in(entries: &[ParserEntry], state: u8) -> usize
    ensures { result ≡ length (entries_in state entries.now) }
{
    let mut count = 0;
    for entry in entries {
        if entry.state == state {
            count += 1;
        }
    }
    count
}

/// A copy of bytes.
pub fn copied(alloc: Global, bytes: &[u8]) -> Result<Bytes, AllocError>
    ensures { IfOk result (λ copy. copy ≡ bytes.now) }
{
    Ok(Bytes::from_vec(Vec::from_slice(alloc, bytes)?))
}

/// A copy of the parser behind one join, where its entry is there and can be joined.
fn behind_join(
    alloc: Global,
    parser: &ParserConfig,
    join: Join,
) -> Result<Option<ParserConfig>, AllocError>
    requires keeps { KeepsForm parser.now }
    ensures given { IfOk result (λ o. o ≡ join_named parser.now join) }
    ensures good { IfOk result (λ o. IfSome o (IsGood parser.now)) }
{
    let mut groups = grouped(alloc, parser)?;
    if !join_in(alloc, &mut groups, join)? {
        return Ok(None);
    }
    Ok(Some(flattened(alloc, &groups)?))
}

/// Joins an entry to those of the state that it goes to: the parser in which the entry is replaced by one for each of them,
/// which does what the two do one after another. Entries of a state are counted from 0.
///
/// It is `None` where the entry goes to no state, has a tail, needs more bytes than it moves the cursor by, or compares a
/// byte behind those; where the next state has no entry, or its last one compares something; where both states together
/// look at more than 4 bytes, or at one behind 128; and where a joined entry would need more than 128 bytes or have more
/// than 64 extracts, or more than 16,384 entries would stand.
///
/// # Errors
///
/// For want of memory.
pub fn join(
    alloc: Global,
    parser: &ParserConfig,
    state: u8,
    entry: u16,
) -> Result<Option<ParserConfig>, JoinFault>
    requires formed { IsTrue (parser_is_formed parser.now) }
    requires there { entry < length (entries_in state parser.now.entries) }
    // Which parser, or that there is none.
    ensures given { IfOk result (λ o. o ≡ join_of parser.now state entry) }
    // On every frame it ends as the parser that was given: too short, rejected, or accepted at the same byte, with the same
    // words and the same tails.
    ensures alike { IfOk result (λ o. IfSome o (ParsesAlike parser.now)) }
    // It keeps the rules of form, so the chip can run it and it can be joined again.
    ensures formed { IfOk result (λ o. IfSome o (λ q. IsTrue (parser_is_formed q))) }
{
    Ok(behind_join(alloc, parser, Join { state, entry })?)
}
