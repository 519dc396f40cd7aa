//! Images are read from their front, once, in time and memory linear in their bytes.

ghost use Rattle.std.specs.Prelude.{◌≡◌, ◌≢◌, ℕ, List, Result, IfOk, Ok, Err};
ghost use Rattle.rmt_config.specs.Spells.{Spells};
ghost use Rattle.rmt_config.specs.declared.config.Config.{Config};
ghost use Rattle.rmt_items.specs.declared.fault.ImageFault.{ImageFault};
ghost use Rattle.rmt_image.specs.Reading.{WholeAnswers, ConfigAnswers, image_at, version_told, Answers};

mod config;

use config::image_of;
use rmt_config::config::Config;
use rmt_items::fault::{ImageFault, ReadError, ReadFault};
use std::alloc::Global;

/// The rules on the whole configuration, and then the limits.
fn looked_at(alloc: Global, config: Config) -> Result<Config, ImageFault>
    ensures { result ≢ Err ImageFault.NoMemory → WholeAnswers config result }
{
    match config.formed(alloc) {
        Err(_) => Err(ImageFault::NoMemory),
        Ok(false) => Err(ImageFault::Form),
        Ok(true) => match config.fits() {
            Ok(()) => Ok(config),
            Err(hit) => Err(ImageFault::Limit(hit)),
        },
    }
}

fn behind_version(alloc: Global, version: u8, bytes: &[u8]) -> Result<Config, ImageFault>
    ensures { result ≢ Err ImageFault.NoMemory → ConfigAnswers (image_at version bytes.now) result }
{
    match image_of(alloc, version, bytes) {
        Err(ReadError::Memory) => Err(ImageFault::NoMemory),
        Err(ReadError::Fault(ReadFault::Short)) => Err(ImageFault::Short),
        Err(ReadError::Fault(ReadFault::Form)) => Err(ImageFault::Form),
        Ok((config, rest)) => {
            if !rest.is_empty() {
                return Err(ImageFault::Trailing);
            }
            looked_at(alloc, config)
        }
    }
}

/// The version at the front of the bytes, where it is one of those that are read.
fn version_of(bytes: &[u8]) -> Option<u8>
    ensures { result ≡ version_told bytes.now }
{
    if bytes.starts_with(&[0, 1]) {
        Some(1)
    } else if bytes.starts_with(&[0, 2]) {
        Some(2)
    } else if bytes.starts_with(&[0, 3]) {
        Some(3)
    } else {
        None
    }
}

fn image(alloc: Global, bytes: &[u8]) -> Result<Config, ImageFault>
    ensures { result ≢ Err ImageFault.NoMemory → Answers bytes.now result }
{
    if !bytes.starts_with(b"RMTI") {
        return Err(ImageFault::Magic);
    }
    let rest = &bytes[4..];
    match version_of(rest) {
        Some(version) => behind_version(alloc, version, &rest[2..]),
        None => Err(ImageFault::Version),
    }
}

/// The configuration that an image spells.
///
/// The image is read from its front, once. `Magic` says that it does not begin with `RMTI`, and `Version` that the
/// version behind is not 1, 2 or 3. Then the configuration is read in order, behind it in version 2 and 3 its names,
/// and behind them in version 3 its tails: `Short` where the bytes end inside an item, and `Form` where an item breaks
/// a rule of form. `Trailing` says that bytes are left behind all that. Then come the rules on the whole
/// configuration, those on names among them, again `Form`, and at last the limits of the chip. The first of these is
/// told.
pub fn read_image(alloc: Global, bytes: &[u8]) -> Result<Config, ImageFault>
    // What is read is spelled so, keeps the rules of form and is within the limits.
    ensures found { IfOk result (λ c. Spells bytes.now c) }

    // What is spelled so is read, unless memory runs out.
    ensures only { (c : Config) → Spells bytes.now c → result ≢ Err ImageFault.NoMemory → result ≡ Ok c }

    // Which fault it is: the first that is met from the front.
    ensures exact { result ≢ Err ImageFault.NoMemory → Answers bytes.now result }
{
    image(alloc, bytes)
}

/// No image spells two configurations.
pub fn spells_one()
    ensures { (bytes : List ℕ) (c d : Config) → Spells bytes c → Spells bytes d → c ≡ d }
{}

/// Each image has one answer, but for want of memory: the configuration or the first fault.
pub fn answers_one()
    ensures { (bytes : List ℕ) (a b : Result Config ImageFault) → Answers bytes a → Answers bytes b → a ≡ b }
{}
