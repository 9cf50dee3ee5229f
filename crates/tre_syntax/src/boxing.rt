//! Values put into boxes, or kept beside others, whatever they are. Each is let go in one way here,
//! where a tree has one for each of its forms.
ghost use Rattle.std.specs.Prelude.{◌≡◌, Ok, Err, IfOk, IfErr};

use std::alloc::{AllocError, Global};

/// The value in a box.
pub fn boxed<T: Drop>(alloc: Global, value: T) -> Result<Box<T>, AllocError>
    ensures { IfOk result (λ b. b.value ≡ value) }
{
    Ok(Box::new(alloc, value)?)
}

/// Both values in boxes.
pub fn boxes<T: Drop>(alloc: Global, one: T, other: T) -> Result<(Box<T>, Box<T>), AllocError>
    ensures one { IfOk result (λ pair. pair.0.value ≡ one) }
    ensures other { IfOk result (λ pair. pair.1.value ≡ other) }
{
    let one = boxed(alloc, one)?;
    let other = boxed(alloc, other)?;
    Ok((one, other))
}

/// What was made, in a box.
pub fn boxed_result<T: Drop>(
    alloc: Global,
    made: Result<T, AllocError>,
) -> Result<Box<T>, AllocError>
    ensures { IfOk result (λ b. made ≡ Ok b.value) }
{
    match made {
        Ok(value) => boxed(alloc, value),
        Err(fault) => Err(fault),
    }
}

/// What was made twice, each in a box.
pub fn boxed_results<T: Drop>(
    alloc: Global,
    one: Result<T, AllocError>,
    other: Result<T, AllocError>,
) -> Result<(Box<T>, Box<T>), AllocError>
    ensures one { IfOk result (λ pair. one ≡ Ok pair.0.value) }
    ensures other { IfOk result (λ pair. other ≡ Ok pair.1.value) }
{
    match both(one, other) {
        Ok((one, other)) => boxes(alloc, one, other),
        Err(fault) => Err(fault),
    }
}

/// What was made, and beside it the second value as it is.
pub fn beside<A: Drop, B: Drop, E: Drop>(first: Result<A, E>, second: B) -> Result<(A, B), E>
    ensures first { IfOk result (λ pair. first ≡ Ok pair.0) }
    ensures second { IfOk result (λ pair. pair.1 ≡ second) }
    ensures err { IfErr result (λ fault. first ≡ Err fault) }
{
    match first {
        Ok(first) => Ok((first, second)),
        Err(fault) => Err(fault),
    }
}

/// What was made twice, where neither failed.
pub fn both<A: Drop, B: Drop, E: Drop>(
    first: Result<A, E>,
    second: Result<B, E>,
) -> Result<(A, B), E>
    ensures first { IfOk result (λ pair. first ≡ Ok pair.0) }
    ensures second { IfOk result (λ pair. second ≡ Ok pair.1) }
{
    match first {
        Ok(first) => match second {
            Ok(second) => Ok((first, second)),
            Err(fault) => Err(fault),
        },
        Err(fault) => Err(fault),
    }
}
