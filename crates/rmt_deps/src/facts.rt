//! What is kept of each node: the fields and words that it touches as sets, and its guards.

ghost use Rattle.std.specs.Prelude.{◌≡◌, ◌≤◌, ◌/◌, ◌<◌, ◌||◌, ℕ, All, IfOk, length};
ghost use Rattle.rmt_bits.specs.Members.{is_among};
ghost use Rattle.rmt_phv.specs.Sets.{has};
ghost use Rattle.rmt_deps.specs.Edges.{guard_of as guard_of_node, guards_of};
ghost use Rattle.rmt_deps.specs.NumberSets.{IsSet};

use crate::touched::{fields_of, words};
use rmt_ast::program::{Guard, Program};
use rmt_bits::sequence::Sequence;
use rmt_phv::places::Places;
use rmt_phv::sets::insert;
use std::alloc::{AllocError, Global};

/// A set of numbers, in blocks of 64 bits.
pub type NumberSet = Sequence<u64>;

/// What is kept of a node.
#[derive(Drop)]
pub struct Facts {
    /// The fields of its key, or the one that it tests.
    pub keys: NumberSet,
    /// The fields that its actions read.
    pub reads: NumberSet,
    /// The fields that its actions assign.
    pub writes: NumberSet,
    /// The words with pieces of the fields that its actions assign.
    pub words: NumberSet,
    /// Its guard.
    pub guard: Option<Guard>,
    /// The guards on the way up from it, its own first.
    pub guards: Sequence<Guard>,
}

impl Facts {
    ghost use Rattle.rmt_deps.specs.Facts.{AreFacts};

    /// What is kept of the node of a number.
    pub fn of_node(
        alloc: Global,
        program: &Program,
        places: &Places,
        number: usize,
    ) -> Result<Facts, AllocError>
        ensures { IfOk result (AreFacts program.now places.now number) }
    {
        let touched = fields_of(alloc, program, number)?;
        let words = words(alloc, places, touched.writes.as_slice())?;
        Ok(Facts {
            keys: set_of(alloc, touched.keys.as_slice())?,
            reads: set_of(alloc, touched.reads.as_slice())?,
            writes: set_of(alloc, touched.writes.as_slice())?,
            words: set_of(alloc, words.as_slice())?,
            guard: guard_of(program, number),
            guards: guards_above(alloc, program, number)?,
        })
    }
}

/// The set of some numbers.
fn set_of(alloc: Global, numbers: &[u32]) -> Result<NumberSet, AllocError>
    ensures { IfOk result (λ set. IsSet set numbers.now) }
{
    let mut set = vec![in alloc; 0; greatest(numbers) as usize / 64 + 1]?;
    insert_each(&mut set, numbers);
    Ok(Sequence::from_vec(set))
}

/// A number that none of these passes.
fn greatest(numbers: &[u32]) -> u32
    ensures { All (λ n. n ≤ result) numbers.now }
{
    let mut most = 0;
    for number in numbers {
        most = most.max(*number);
    }
    most
}

/// Puts numbers into a set that has bits for them.
fn insert_each(set: &mut [u64], numbers: &[u32])
    requires { All (λ n. n / 64 < length set.old) numbers.now }
    ensures { (n : ℕ) → has set.new n ≡ (is_among numbers.now n || has set.old n) }
{
    for number in numbers {
        insert(set, *number as usize);
    }
}

/// The guard of the node of a number.
fn guard_of(program: &Program, number: usize) -> Option<Guard>
    ensures { result ≡ guard_of_node program.now number }
{
    program.nodes.get(number)?.guard
}

/// The guards on the way up from a node, its own first.
fn guards_above(
    alloc: Global,
    program: &Program,
    number: usize,
) -> Result<Sequence<Guard>, AllocError>
    ensures { IfOk result (λ guards. guards ≡ guards_of program.now number) }
{
    let mut guards = Sequence::new(alloc);
    let mut at = number;
    let mut steps = number;
    while steps > 0 {
        let Some(guard) = guard_of(program, at) else {
            return Ok(guards);
        };
        guards.push(guard)?;
        at = guard.parent as usize;
        steps -= 1;
    }
    Ok(guards)
}
