//! What has a spelling in an image, and lists of it.

ghost use Rattle.std.specs.Prelude.{◌≡◌, ◌++◌, ◌∷◌, [], ◌<◌, ◌^◌, ℕ, List, length, All, OnOk};
ghost use Rattle.std.specs.List.{flat_map};
ghost use Rattle.rmt_config.specs.Spelling.{two_bytes, four_bytes, spelled_list8, spelled_list16, spelled_list32};

use std::alloc::AllocError;

/// What has a spelling in an image.
pub trait Spelled {
    /// Its bytes.
    ghost spelling: { Self → List ℕ };

    /// That its counts fit the places before its lists.
    ghost fits: { Self → Type 0 } = { λ _. Unit {0} };

    /// Puts its bytes behind others.
    fn put(&self, out: &mut Vec<u8>) -> Result<(), AllocError>
        requires { fits self.now }
        ensures { OnOk result (out.new.items ≡ out.old.items ++ spelling self.now) };
}

/// A number of one byte.
impl Spelled for u8 {
    ghost spelling = { λ number. number ∷ [] };

    fn put(&self, out: &mut Vec<u8>) -> Result<(), AllocError> {
        out.push(*self)?;
        Ok(())
    }
}

/// A number of two bytes, the highest first.
#[tactic(auto, using(rmt_config::proofs::HighFirst::high_first))]
pub fn put_two(out: &mut Vec<u8>, number: u16) -> Result<(), AllocError>
    ensures put { OnOk result (out.new.items ≡ out.old.items ++ two_bytes number) }
{
    out.extend_from_slice(&number.to_be_bytes())
}

/// A number of four bytes, the highest first.
#[tactic(auto, using(rmt_config::proofs::HighFirst::high_first))]
pub fn put_four(out: &mut Vec<u8>, number: u32) -> Result<(), AllocError>
    ensures put { OnOk result (out.new.items ≡ out.old.items ++ four_bytes number) }
{
    out.extend_from_slice(&number.to_be_bytes())
}

/// Items one behind the other.
pub fn put_all<T: Spelled>(out: &mut Vec<u8>, items: &[T]) -> Result<(), AllocError>
    requires { All T.fits items.now }
    ensures put { OnOk result (out.new.items ≡ out.old.items ++ flat_map T.spelling items.now) }
{
    for item in items {
        item.put(out)?;
    }
    Ok(())
}

/// Items behind their count, of one byte.
pub fn put_list8<T: Spelled>(out: &mut Vec<u8>, items: &[T]) -> Result<(), AllocError>
    requires count { length items.now < 2 ^ 8 }
    requires each { All T.fits items.now }
    ensures put { OnOk result (out.new.items ≡ out.old.items ++ spelled_list8 T.spelling items.now) }
{
    out.push(items.len() as u8)?;
    put_all(out, items)
}

/// Items behind their count, of two bytes.
pub fn put_list16<T: Spelled>(out: &mut Vec<u8>, items: &[T]) -> Result<(), AllocError>
    requires count { length items.now < 2 ^ 16 }
    requires each { All T.fits items.now }
    ensures put { OnOk result (out.new.items ≡ out.old.items ++ spelled_list16 T.spelling items.now) }
{
    put_two(out, items.len() as u16)?;
    put_all(out, items)
}

/// Items behind their count, of four bytes.
pub fn put_list32<T: Spelled>(out: &mut Vec<u8>, items: &[T]) -> Result<(), AllocError>
    requires count { length items.now < 2 ^ 32 }
    requires each { All T.fits items.now }
    ensures put { OnOk result (out.new.items ≡ out.old.items ++ spelled_list32 T.spelling items.now) }
{
    put_four(out, items.len() as u32)?;
    put_all(out, items)
}
