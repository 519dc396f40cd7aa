//! What stands behind the version: the configuration, its names and its tails.

ghost use Rattle.std.specs.Prelude.{◌≡◌};
ghost use Rattle.rmt_items.specs.Readers.{Gives};
ghost use Rattle.rmt_image.specs.Reading.{ports_at, config_at, named_at, tailed_at, image_at};

use rmt_bits::lane::Lane;
use rmt_config::config::Config;
use rmt_items::fault::Read;
use rmt_items::reading::header::headers_of;
use rmt_items::reading::lane::lane_of_bits;
use rmt_items::reading::names::names_of;
use rmt_items::reading::number::byte_of;
use rmt_items::reading::parser::parser_of;
use rmt_items::reading::stage::stages_of;
use rmt_items::reading::tails::tails_of;
use std::alloc::Global;

/// The seed, and the lanes of the ports and of the drop bit.
#[derive(Clone, Copy)]
struct Ports {
    seed: u8,
    in_port: Lane,
    out_port: Lane,
    drop: Lane,
}

#[tactic(auto, unfolding(crate::specs::Reading::ports_at))]
fn ports_of(bytes: &[u8]) -> Read<Ports>
    ensures { Gives (λ x. (x.0, x.1.now)) result (ports_at bytes.now) }
{
    let (seed, rest) = byte_of(bytes)?;
    let (in_port, rest) = lane_of_bits(9, rest)?;
    let (out_port, rest) = lane_of_bits(9, rest)?;
    let (drop, rest) = lane_of_bits(1, rest)?;
    let ports = Ports {
        seed,
        in_port,
        out_port,
        drop,
    };
    Ok((ports, rest))
}

/// A configuration without names and tails.
#[tactic(auto, unfolding(crate::specs::Reading::config_at))]
fn config_of(alloc: Global, bytes: &[u8]) -> Read<Config>
    ensures { Gives (λ x. (x.0, x.1.now)) result (config_at bytes.now) }
{
    let (ports, rest) = ports_of(bytes)?;
    let (headers, rest) = headers_of(alloc, rest)?;
    let (parser, rest) = parser_of(alloc, rest)?;
    let (stages, rest) = stages_of(alloc, rest)?;
    let config = Config {
        seed: ports.seed,
        in_port: ports.in_port,
        out_port: ports.out_port,
        drop: ports.drop,
        headers,
        parser,
        stages,
        names: None,
    };
    Ok((config, rest))
}

/// A configuration without tails, and its names behind it.
#[tactic(auto, unfolding(crate::specs::Reading::named_at))]
fn named_of(alloc: Global, bytes: &[u8]) -> Read<Config>
    ensures { Gives (λ x. (x.0, x.1.now)) result (named_at bytes.now) }
{
    let (mut config, rest) = config_of(alloc, bytes)?;
    let (names, rest) = names_of(alloc, rest)?;
    config.names = Some(names);
    Ok((config, rest))
}

/// A configuration, its names and its tails one behind the other.
#[tactic(auto, unfolding(crate::specs::Reading::tailed_at))]
fn tailed_of(alloc: Global, bytes: &[u8]) -> Read<Config>
    ensures { Gives (λ x. (x.0, x.1.now)) result (tailed_at bytes.now) }
{
    let (mut config, rest) = named_of(alloc, bytes)?;
    let entries = config.parser.entries.as_slice();
    let (tails, rest) = tails_of(alloc, entries, config.headers.len(), rest)?;
    config.parser.tails = tails;
    Ok((config, rest))
}

/// What stands behind this version, at the front of the bytes.
#[tactic(auto, unfolding(crate::specs::Reading::image_at))]
pub fn image_of(alloc: Global, version: u8, bytes: &[u8]) -> Read<Config>
    ensures { Gives (λ x. (x.0, x.1.now)) result (image_at version bytes.now) }
{
    match version {
        1 => config_of(alloc, bytes),
        2 => named_of(alloc, bytes),
        _ => tailed_of(alloc, bytes),
    }
}
