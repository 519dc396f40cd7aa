//! Bits and counters, packets and captures, and what stands outside.

mod bits;
mod captures;
mod counts;
mod outside;
mod packets;
mod pieces;
mod registers;
mod shelves;
