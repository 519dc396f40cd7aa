//! Why an image, or an item of it, was not read or written.

ghost use Rattle.std.specs.Prelude.{◌≡◌};
ghost use Rattle.rmt_items.specs.declared.fault.ImageFault.TheVariants.{NoMemory};
ghost use Rattle.rmt_items.specs.declared.fault.ReadError.TheVariants.{Memory};

use rmt_config::limits::LimitHit;
use std::alloc::AllocError;
use thiserror::Error;

/// Why an image was not read or written.
#[derive(Clone, Copy, Debug, Drop, PartialEq, Eq, Error)]
pub enum ImageFault {
    #[error("out of memory")]
    NoMemory,
    #[error("the file is no image: it does not begin with RMTI")]
    Magic,
    #[error("the image is of another version than 1, 2 and 3")]
    Version,
    #[error("the image ends inside an item")]
    Short,
    #[error("the image breaks a rule of its form")]
    Form,
    #[error("bytes are left at the end of the image")]
    Trailing,
    #[error("the configuration passes limit {} of the chip in stage {}", .0.limit, .0.stage)]
    Limit(LimitHit),
}

impl From<AllocError> for ImageFault {
    ghost from_gives = { λ _ e. e ≡ NoMemory };

    fn from(_e: AllocError) -> ImageFault {
        ImageFault::NoMemory
    }
}

/// What is wrong with the bytes of a configuration: the first fault from the front.
#[derive(Clone, Copy)]
pub enum ReadFault {
    /// The bytes end inside an item.
    Short,
    /// An item breaks a rule of form.
    Form,
}

/// Why nothing was read.
#[derive(Clone, Copy)]
pub enum ReadError {
    /// Memory ran out.
    Memory,
    /// The bytes are at fault.
    Fault(ReadFault),
}

impl From<AllocError> for ReadError {
    ghost from_gives = { λ _ e. e ≡ Memory };

    fn from(_e: AllocError) -> ReadError {
        ReadError::Memory
    }
}

/// An item from the front of bytes and the bytes behind it, or what is wrong there.
pub type Read<'a, T> = Result<(T, &'a [u8]), ReadError>;
