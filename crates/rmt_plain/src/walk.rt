//! The walk of a frame through the parse graph.

ghost use Rattle.std.specs.Prelude.{◌≡◌, ℕ, ◌+◌, ◌≤◌, length, List, IfOk, Some};
ghost use Rattle.rmt_ast.specs.State as state_spec;
ghost use Rattle.rmt_ast.specs.Walk as spec;
ghost use Rattle.rmt_plain.specs.Runnable.{IsRunnable, HeaderFits};
ghost use Rattle.rmt_plain.specs.Walking.{reached_in, goes_past, goes_on, walk_of};

use crate::fields::set_fields;
use crate::numbers::{number_at, put_at};
use crate::reached::{Reached, Span};
use rmt_ast::program::{Header, Program, Tail, Target, Test};
use std::alloc::{AllocError, Global};

/// How the tail of a header ends.
#[derive(Clone, Copy)]
enum TailEnd {
    /// The frame ends inside it.
    Short,
    /// Its length is negative.
    Reject,
    /// The walk stands behind it.
    Past,
}

/// How a header ends.
#[derive(Clone, Copy)]
enum HeaderEnd {
    /// The frame ends inside it.
    Short,
    /// The frame is rejected.
    Reject,
    /// The control comes next.
    Accept,
    /// The header of this number comes next.
    Go(u32),
}

/// How a walk ends.
#[derive(Clone, Copy)]
pub enum WalkEnd {
    /// The frame ends inside a header.
    Short,
    /// The frame is rejected.
    Reject,
    /// The control comes next, and the rest of the frame is the payload.
    Accept,
}

/// At first nothing is read.
pub fn begin(alloc: Global, program: &Program, port: u16) -> Result<Reached, AllocError>
    ensures { IfOk result (λ r. (frame : List ℕ) → reached_in frame r ≡ spec.begin program.now port) }
{
    let mut state = vec![in alloc; 0; program.fields.len()]?;
    put_at(&mut state, 0, u128::from(port));
    let tails = vec![in alloc; Span { from: 0, len: 0 }; program.headers.len()]?;
    Ok(Reached {
        state,
        tails,
        at: 0,
    })
}

/// Whether a number passes a test.
pub fn passes(test: Test, number: u128) -> bool
    ensures { result ≡ state_spec.passes test number }
{
    number & test.mask == test.value & test.mask
}

/// Whether each of the fields passes its test.
pub fn all_pass(tests: &[Test], fields: &[u32], state: &[u128]) -> bool
    ensures { result ≡ spec.all_pass tests.now fields.now state.now }
{
    for i in 0..tests.len().min(fields.len()) {
        if !passes(tests[i], number_at(state, fields[i] as usize)) {
            return false;
        }
    }
    true
}

/// Where the parse goes behind a header.
fn target(header: &Header, state: &[u128]) -> Target
    ensures { result ≡ spec.target_of header.now state.now }
{
    for case in header.cases.as_slice() {
        if all_pass(case.tests.as_slice(), header.select.as_slice(), state) {
            return case.target;
        }
    }
    header.other
}

/// Reads the bytes of a header.
fn read_header(program: &Program, header: &Header, frame: &[u8], reached: &mut Reached)
    requires runs { IsRunnable program.now }
    requires fits { HeaderFits program.now header.now }
    requires inside { reached.old.at + header.now.bytes ≤ length frame.now }
    ensures { reached_in frame.now reached.new
        ≡ spec.behind program.now header.now frame.now (reached_in frame.now reached.old) }
{
    let end = reached.at + usize::from(header.bytes);
    let bytes = &frame[reached.at..end];
    set_fields(program, header.fields.as_slice(), bytes, &mut reached.state);
    put_at(&mut reached.state, header.valid as usize, 1);
    reached.at = end;
}

/// Goes past a tail of that many bytes, which is that of the header of a number.
fn move_past(frame: &[u8], number: u32, bytes: usize, reached: &mut Reached)
    requires { reached.old.at + bytes ≤ length frame.now }
    ensures { reached_in frame.now reached.new
        ≡ spec.behind_tail frame.now number bytes (reached_in frame.now reached.old) }
{
    let tail = Span {
        from: reached.at,
        len: bytes,
    };
    put_at(&mut reached.tails, number as usize, tail);
    reached.at += bytes;
}

/// Goes past a tail of the header of a number.
fn pass_tail(frame: &[u8], number: u32, tail: Tail, reached: &mut Reached) -> TailEnd
    requires { reached.old.at ≤ length frame.now }
    ensures walk { (goes : spec.Reached → spec.Walk) →
        spec.past_tail goes frame.now number (Some tail) (reached_in frame.now reached.old)
        ≡ goes_past goes result (reached_in frame.now reached.new) }
    ensures within { reached.new.at ≤ length frame.now }
{
    let told = number_at(&reached.state, tail.field as usize).saturating_mul(u128::from(tail.unit));
    let base = u128::from(tail.base);
    if told < base {
        return TailEnd::Reject;
    }
    let left = frame.len() - reached.at;
    if told - base > left as u128 {
        return TailEnd::Short;
    }
    move_past(frame, number, (told - base) as usize, reached);
    TailEnd::Past
}

/// Goes past the tail of the header of a number, where it has one.
fn pass_tail_if(frame: &[u8], number: u32, tail: Option<Tail>, reached: &mut Reached) -> TailEnd
    requires { reached.old.at ≤ length frame.now }
    ensures walk { (goes : spec.Reached → spec.Walk) →
        spec.past_tail goes frame.now number tail (reached_in frame.now reached.old)
        ≡ goes_past goes result (reached_in frame.now reached.new) }
    ensures within { reached.new.at ≤ length frame.now }
{
    match tail {
        Some(tail) => pass_tail(frame, number, tail, reached),
        None => TailEnd::Past,
    }
}

/// What a target comes to.
fn follow(target: Target) -> HeaderEnd
    ensures { (next : ℕ → spec.Reached → spec.Walk) (r : spec.Reached) →
        spec.follow (λ n. next n r) target r ≡ goes_on next result r }
{
    match target {
        Target::Node(header) => HeaderEnd::Go(header),
        Target::Accept => HeaderEnd::Accept,
        Target::Reject => HeaderEnd::Reject,
    }
}

/// Goes past the header of a number.
fn pass_header(
    program: &Program,
    frame: &[u8],
    number: u32,
    header: &Header,
    reached: &mut Reached,
) -> HeaderEnd
    requires runs { IsRunnable program.now }
    requires fits { HeaderFits program.now header.now }
    requires inside { reached.old.at ≤ length frame.now }
    ensures walk { (next : ℕ → spec.Reached → spec.Walk) →
        spec.step next program.now frame.now number (Some header.now) (reached_in frame.now reached.old)
        ≡ goes_on next result (reached_in frame.now reached.new) }
    ensures within { reached.new.at ≤ length frame.now }
{
    if frame.len() - reached.at < usize::from(header.bytes) {
        return HeaderEnd::Short;
    }
    read_header(program, header, frame, reached);
    match pass_tail_if(frame, number, header.tail, reached) {
        TailEnd::Short => HeaderEnd::Short,
        TailEnd::Reject => HeaderEnd::Reject,
        TailEnd::Past => follow(target(header, &reached.state)),
    }
}

/// Walks a frame from the first header on.
pub fn walk(program: &Program, frame: &[u8], reached: &mut Reached) -> WalkEnd
    requires runs { IsRunnable program.now }
    requires inside { reached.old.at ≤ length frame.now }
    ensures walk { walk_of result (reached_in frame.now reached.new)
        ≡ spec.walk_from (length program.now.headers) program.now frame.now 0 (reached_in frame.now reached.old) }
    ensures within { reached.new.at ≤ length frame.now }
{
    let mut number: u32 = 0;
    for _k in 0..program.headers.len() {
        let Some(header) = program.headers.get(number as usize) else {
            return WalkEnd::Reject;
        };
        match pass_header(program, frame, number, header, reached) {
            HeaderEnd::Short => return WalkEnd::Short,
            HeaderEnd::Reject => return WalkEnd::Reject,
            HeaderEnd::Accept => return WalkEnd::Accept,
            HeaderEnd::Go(next) => number = next,
        }
    }
    WalkEnd::Reject
}
