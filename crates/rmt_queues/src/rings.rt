//! The queue of a port as a ring of numbers, which takes memory only when it is made.

ghost use Rattle.std.specs.Prelude.{◌≡◌, ℕ, ◌+◌, ◌*◌, ◌<◌, ◌≤◌, ◌^◌, ◌++◌, ◌∷◌, [], List, length, drop, replicate, slice_get, IfOk, vec_len, nat_eq, nat_lt, if◌then◌else◌};
ghost use Rattle.std.specs.List.{All, IsDistinct, count_by};
ghost use Rattle.rmt_queues.specs.Copies.{with_copy};
ghost use Rattle.rmt_queues.specs.Rings.{AreRoomy, ring_of};

use std::alloc::{AllocError, Global};
use std::collections::VecDeque;

/// The numbers that wait in a queue, the one that is taken next at the front.
#[derive(Drop)]
pub struct Ring {
    /// The numbers; there is room for as many as the queue may have, 1 to 64.
    pub numbers: VecDeque<u32>,
}

impl Ring {
    ghost use Rattle.std.specs.VecDeque.{deque_capacity};
    ghost use Rattle.rmt_queues.specs.Rings.{IsRoomy};

    /// A ring without numbers, with room for so many.
    pub fn new(alloc: Global, depth: u16) -> Result<Ring, AllocError>
        ensures empty { IfOk result (λ ring. ring.numbers.items ≡ []) }
        ensures roomy { IfOk result (IsRoomy depth) }
    {
        let numbers = VecDeque::with_capacity(alloc, depth as usize)?;
        Ok(Ring { numbers })
    }

    /// Whether it has fewer numbers than this.
    pub fn has_room(&self, depth: u16) -> bool
        ensures { result ≡ nat_lt (length self.now.numbers.items) depth }
    {
        self.numbers.len() < depth as usize
    }

    /// Puts a number at the end, where there are fewer than this.
    pub fn push(&mut self, depth: u16, number: u32)
        requires { IsRoomy depth self.old }
        ensures roomy { IsRoomy depth self.new }
        ensures numbers { self.new.numbers.items ≡
            (if nat_lt (length self.old.numbers.items) depth then self.old.numbers.items ++ number ∷ [] else self.old.numbers.items) }
    {
        if self.has_room(depth) {
            self.numbers.push_back_reserved(number);
        }
    }

    /// Takes the first number.
    pub fn pop(&mut self) -> Option<u32>
        ensures roomy { (depth : ℕ) → IsRoomy depth self.old → IsRoomy depth self.new }
        ensures first { result ≡ slice_get self.old.numbers.items 0 }
        ensures rest { self.new.numbers.items ≡ drop 1 self.old.numbers.items }
    {
        self.numbers.pop_front()
    }
}

/// So many rings without numbers.
pub fn empty_rings(alloc: Global, ports: u16, depth: u16) -> Result<Vec<Ring>, AllocError>
    ensures many { IfOk result (λ rings. length rings.items ≡ ports) }
    ensures empty { IfOk result (λ rings. (port : ℕ) → port < ports → ring_of rings.items port ≡ []) }
    ensures roomy { IfOk result (λ rings. AreRoomy depth rings.items) }
{
    let mut rings = Vec::with_capacity(alloc, ports as usize)?;
    for _port in 0..ports {
        rings.push(Ring::new(alloc, depth)?)?;
    }
    Ok(rings)
}

/// How many of these ports have fewer than `depth` numbers.
pub fn with_room(rings: &[Ring], depth: u16, ports: &[u16]) -> u16
    requires within { All (λ port. port < length rings.now) ports.now }
    requires few { length ports.now < 2 ^ 16 }
    ensures { result ≡ count_by (λ port. nat_lt (length (ring_of rings.now port)) depth) ports.now }
{
    let mut count = 0;
    for port in ports {
        if rings[*port as usize].has_room(depth) {
            count += 1;
        }
    }
    count
}

/// Puts a number at the end of the ring of each of these ports that has fewer than `depth`.
pub fn send(rings: &mut Vec<Ring>, depth: u16, ports: &[u16], number: u32)
    requires within { All (λ port. port < vec_len rings.old) ports.now }
    requires once { IsDistinct nat_eq ports.now }
    requires roomy { AreRoomy depth rings.old.items }
    ensures many { length rings.new.items ≡ length rings.old.items }
    ensures roomy { AreRoomy depth rings.new.items }
    ensures copies { (port : ℕ) → port < length rings.old.items →
        ring_of rings.new.items port ≡ with_copy depth ports.now number port (ring_of rings.old.items port) }
{
    for port in ports {
        rings[*port as usize].push(depth, number);
    }
}
