// Bytes as they are compared where upper case and lower case count as one.
ghost use Rattle.std.specs.Prelude.{◌≡◌, map, IfOk, true};
ghost use Rattle.rule_terms.specs.Match as term;

use std::alloc::{AllocError, Global};

fn lowered(b: u8) -> u8
    ensures { result ≡ term.lowered b }
{
    if b >= b'A' && b <= b'Z' { b + 32 } else { b }
}

fn lower(bytes: &mut [u8])
    ensures { bytes.new ≡ map term.lowered bytes.old }
{
    for b in bytes.iter_mut() {
        *b = lowered(*b);
    }
}

/// A copy of the bytes, with each letter of ASCII in lower case.
#[tactic(auto, unfolding(rule_terms::specs::Match::compared))]
pub(crate) fn lowered_copy(alloc: Global, bytes: &[u8]) -> Result<Vec<u8>, AllocError>
    ensures { IfOk result (λ copy. copy.items ≡ term.compared true bytes.now) }
{
    let mut copy = bytes.to_vec(alloc)?;
    lower(&mut copy);
    Ok(copy)
}

/// A copy of the bytes as they are compared.
#[tactic(auto, unfolding(rule_terms::specs::Match::compared))]
pub(crate) fn compared(alloc: Global, nocase: bool, bytes: &[u8]) -> Result<Vec<u8>, AllocError>
    ensures { IfOk result (λ copy. copy.items ≡ term.compared nocase bytes.now) }
{
    if nocase {
        lowered_copy(alloc, bytes)
    } else {
        bytes.to_vec(alloc)
    }
}
