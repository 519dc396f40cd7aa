//! The bytes that a state looks up.

ghost use Rattle.std.specs.Prelude.{◌≡◌, ◌+◌, ◌≤◌, slice_index, map};
ghost use Rattle.rmt_config.specs.Parser.{lookup_value};

use rmt_config::config::ParserState;

/// A byte that a state looks up; past the end of the lookups, and of the frame, it is 0.
fn looked_up(frame: &[u8], cursor: u32, state: &ParserState, at: usize) -> u8
    requires { cursor ≤ 9216 }
    ensures { result ≡ slice_index (map (λ offset. slice_index frame.now (cursor + offset)) state.now.lookups) at }
{
    match state.lookups.get(at) {
        Some(offset) => {
            let byte = cursor as usize + usize::from(*offset);
            if byte < frame.len() { frame[byte] } else { 0 }
        }
        None => 0,
    }
}

/// The lookup bytes of a state, the first one highest of four.
pub fn lookup(frame: &[u8], cursor: u32, state: &ParserState) -> u32
    requires { cursor ≤ 9216 }
    ensures { result ≡ lookup_value frame.now cursor state.now }
{
    let first = u32::from(looked_up(frame, cursor, state, 0));
    let second = u32::from(looked_up(frame, cursor, state, 1));
    let third = u32::from(looked_up(frame, cursor, state, 2));
    let fourth = u32::from(looked_up(frame, cursor, state, 3));
    ((first * 256 + second) * 256 + third) * 256 + fourth
}
