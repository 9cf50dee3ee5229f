// What declarations offer to definitions.
ghost use Rattle.std.specs.Prelude.{◌≡◌, ◌++◌, ℕ, List, None, map, IfOk, if◌then◌else◌};
ghost use Rattle.std.specs.Option.{option_map};
ghost use Rattle.tre_vcd.specs.VcdReading.{has_bits, offer_in, offer_of, path};
ghost use Rattle.tre_vcd.specs.Kept.{AreScopes};
ghost use Rattle.tre_vcd.specs.Signals.{begins_range, offer_kept, size_offered};

use crate::letters::joined;
use crate::scopes::Scopes;
use crate::token::has_bits;
use std::alloc::{AllocError, Global};
use tre_decimal::read_numeral;

// Values of an identifier, of so many bits, by a full name.
#[derive(Drop)]
pub struct Offered {
    pub identifier: Vec<u8>,
    pub full_name: Vec<u8>,
    pub size: u64,
}

// What these tokens of a declaration offer in these scopes.
pub fn offer_in(
    alloc: Global,
    scopes: &Scopes,
    tokens: &[Vec<u8>],
) -> Result<Option<Offered>, AllocError>
    ensures { (open_scopes : List (List ℕ)) →
        AreScopes open_scopes scopes.now.prefix.items scopes.now.lens.items →
        IfOk result (λ offered. option_map offer_kept offered
        ≡ offer_in open_scopes (map (λ token. token.items) tokens.now)) }
{
    match tokens {
        [kind, size, identifier, reference] => {
            offer_of(alloc, scopes, kind, size, identifier, reference)
        }
        [kind, size, identifier, reference, range] => {
            offer_of_range(alloc, scopes, kind, size, identifier, reference, range)
        }
        _ => Ok(None),
    }
}

// What a variable of this type, size and identifier offers, by its reference and the token behind.
fn offer_of_range(
    alloc: Global,
    scopes: &Scopes,
    kind: &[u8],
    size: &[u8],
    identifier: &[u8],
    reference: &[u8],
    range: &[u8],
) -> Result<Option<Offered>, AllocError>
    ensures { (open_scopes : List (List ℕ)) →
        AreScopes open_scopes scopes.now.prefix.items scopes.now.lens.items →
        IfOk result (λ offered. option_map offer_kept offered
        ≡ (if begins_range range.now
        then offer_of kind.now size.now identifier.now
        (path open_scopes (reference.now ++ range.now))
        else None)) }
{
    if !begins_range(range) {
        return Ok(None);
    }
    let full_reference = joined(alloc, reference, range)?;
    offer_of(alloc, scopes, kind, size, identifier, &full_reference)
}

// Whether a token is the range of a reference.
fn begins_range(token: &[u8]) -> bool
    ensures { result ≡ begins_range token.now }
{
    match token {
        [] => false,
        [first, ..] => *first == b'[',
    }
}

// What a variable of this type, size, identifier and reference offers.
fn offer_of(
    alloc: Global,
    scopes: &Scopes,
    kind: &[u8],
    size: &[u8],
    identifier: &[u8],
    reference: &[u8],
) -> Result<Option<Offered>, AllocError>
    ensures { (open_scopes : List (List ℕ)) →
        AreScopes open_scopes scopes.now.prefix.items scopes.now.lens.items →
        IfOk result (λ offered. option_map offer_kept offered
        ≡ offer_of kind.now size.now identifier.now (path open_scopes reference.now)) }
{
    let Some(size) = size_offered(kind, size) else {
        return Ok(None);
    };
    let full_name = scopes.path(alloc, reference)?;
    let identifier = Vec::from_slice(alloc, identifier)?;
    Ok(Some(Offered {
        identifier,
        full_name,
        size,
    }))
}

// How many bits a variable of this type and size offers.
fn size_offered(kind: &[u8], size: &[u8]) -> Option<u64>
    ensures { result ≡ size_offered kind.now size.now }
{
    if !has_bits(kind) {
        return None;
    }
    match read_numeral(size) {
        Some(bits) if bits > 0 => Some(bits),
        _ => None,
    }
}
