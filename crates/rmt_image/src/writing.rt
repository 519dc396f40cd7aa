//! Images are written from their front, once, each list behind its length.

ghost use Rattle.std.specs.Prelude.{◌≡◌, ◌++◌, OnOk, IfOk, IsOkUnless};
ghost use Rattle.rmt_config.specs.Spelling.{spelled_config, spelled_ports, CountsFit};
ghost use Rattle.rmt_config.specs.ImageSpelling.{spelled_image, version_of};
ghost use Rattle.rmt_config.specs.Form.{Formed};
ghost use Rattle.rmt_config.specs.Limits.{IsWithinLimits};

use rmt_config::config::Config;
use rmt_items::fault::ImageFault;
use rmt_items::writing::names::put_names;
use rmt_items::writing::parser::put_parser;
use rmt_items::writing::spelled::{Spelled, put_list8, put_two};
use rmt_items::writing::tails::put_tails;
use std::alloc::{AllocError, Global};

fn put_ports(out: &mut Vec<u8>, config: &Config) -> Result<(), AllocError>
    ensures { OnOk result (out.new.items ≡ out.old.items ++ spelled_ports config.now) }
{
    out.push(config.seed)?;
    config.in_port.put(out)?;
    config.out_port.put(out)?;
    config.drop.put(out)
}

fn put_config(out: &mut Vec<u8>, config: &Config) -> Result<(), AllocError>
    requires { CountsFit config.now }
    ensures { OnOk result (out.new.items ≡ out.old.items ++ spelled_config config.now) }
{
    put_ports(out, config)?;
    put_list8(out, config.headers.as_slice())?;
    put_parser(out, &config.parser)?;
    put_list8(out, config.stages.as_slice())
}

/// The version in which a configuration is spelled.
fn version(config: &Config) -> u16
    ensures { result ≡ version_of config.now }
{
    if !config.parser.tails.is_empty() {
        3
    } else if config.names.is_some() {
        2
    } else {
        1
    }
}

fn put_image(out: &mut Vec<u8>, config: &Config) -> Result<(), AllocError>
    requires { Formed config.now }
    ensures { OnOk result (out.new.items ≡ out.old.items ++ spelled_image config.now) }
{
    out.extend_from_slice(b"RMTI")?;
    put_two(out, version(config))?;
    put_config(out, config)?;
    put_names(out, &config.names)?;
    put_tails(out, config.parser.tails.as_slice())
}

/// The image of a configuration: the one list of bytes that spells it, of version 1 where it has no names, 2 where it
/// has names and no tail, and 3 where it has a tail. Its only refusal is `NoMemory`.
pub fn write_image(alloc: Global, config: &Config) -> Result<Vec<u8>, ImageFault>
    requires formed { Formed config.now }
    requires limits { IsWithinLimits config.now }
    ensures ok { IfOk result (λ image. image.items ≡ spelled_image config.now) }
    ensures only_memory { IsOkUnless result ImageFault.NoMemory }
{
    let mut image = Vec::new(alloc);
    put_image(&mut image, config)?;
    Ok(image)
}
