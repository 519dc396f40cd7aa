//! Bits of a frame that are put into lanes of a vector.

ghost use Rattle.std.specs.Prelude.{◌≡◌, ◌+◌, ◌<◌, ◌≤◌, ◌^◌, true, length, fold, All};
ghost use Rattle.rmt_bits.specs.Words.{word_size};
ghost use Rattle.rmt_config.specs.ParserForm.{extract_is_formed};
ghost use Rattle.rmt_config.specs.Parser.{extracted, put as put_of};

use rmt_bits::bits::{bits_of_bytes, deposit};
use rmt_bits::lane::Lane;
use rmt_config::config::Extract;
use rmt_config::vector::Vector;

/// Puts bits into a lane.
fn put(vector: &mut Vector, lane: Lane, bits: u128)
    requires exists { lane.word < 224 }
    requires lies { lane.low + lane.len ≤ word_size lane.word }
    requires within { bits < 2 ^ lane.len }
    ensures { vector.new ≡ put_of vector.old lane bits }
{
    let old = vector.get(lane.word);
    let new = deposit(u128::from(old), lane.low, lane.len, bits);
    vector.set(lane.word, new as u32);
}

fn extract(vector: &mut Vector, window: &[u8], one: Extract)
    requires { extract_is_formed (length window.now) one ≡ true }
    ensures { vector.new ≡ extracted window.now vector.old one }
{
    match one {
        Extract::Bits { from, lane } => {
            let bits = bits_of_bytes(window, u32::from(from), lane.len);
            put(vector, lane, bits);
        }
        Extract::One { lane } => put(vector, lane, 1),
    }
}

/// Does extracts, one after another, on a window that begins at the cursor.
pub fn extract_all(vector: &mut Vector, window: &[u8], extracts: &[Extract])
    requires { All (λ x. extract_is_formed (length window.now) x ≡ true) extracts.now }
    ensures { vector.new ≡ fold (extracted window.now) vector.old extracts.now }
{
    for one in extracts {
        extract(vector, window, *one);
    }
}
