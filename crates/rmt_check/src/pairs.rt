//! Values that are made together, or in several steps.

ghost use Rattle.std.specs.Prelude.{◌≡◌, IfOk, IsOk, Ok};

use std::alloc::AllocError;

/// Both of two values, if there was memory for them.
pub fn both<A: Drop, B: Drop>(
    first: Result<A, AllocError>,
    second: Result<B, AllocError>,
) -> Result<(A, B), AllocError>
    ensures first { IfOk result (λ both. first ≡ Ok both.0) }
    ensures second { IfOk result (λ both. second ≡ Ok both.1) }
{
    Ok((first?, second?))
}

/// A value, if there was memory for what was done with it.
pub fn kept<T: Drop>(value: T, done: Result<(), AllocError>) -> Result<T, AllocError>
    ensures { IfOk result (λ kept. IsOk done × (kept ≡ value)) }
{
    done?;
    Ok(value)
}
