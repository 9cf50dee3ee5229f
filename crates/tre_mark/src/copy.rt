ghost use Rattle.std.specs.Prelude.{◌≡◌, IfOk};
ghost use Rattle.tre_mark.specs.MarkTree.{mark_of, atom_mark};

use crate::forms::{atom, intersection_behind, repetition_behind, restriction_behind};
use crate::mark::{Mark, Room};
use std::alloc::{AllocError, Global};
use tre_syntax::{boxed_result, boxed_results};
use tre_zone::Zone;

impl Mark {
    /// The same mark once more. It goes as deep as the mark does.
    pub fn try_clone(&self, alloc: Global) -> Result<Mark, AllocError>
        ensures { IfOk result (λ copy. mark_of copy ≡ mark_of self.now) }
    {
        match self {
            Mark::Atom { here, begun, .. } => copied_atom(alloc, here, begun),
            Mark::Seq { left, right, .. } => {
                let left = left.try_clone(alloc);
                let right = right.try_clone(alloc);
                let (left, right) = boxed_results(alloc, left, right)?;
                Ok(Mark::Seq {
                    left,
                    right,
                    room: Room::new(alloc),
                })
            }
            Mark::Alt(left, right) => {
                let left = left.try_clone(alloc);
                let right = right.try_clone(alloc);
                let (left, right) = boxed_results(alloc, left, right)?;
                Ok(Mark::Alt(left, right))
            }
            Mark::Star { here, body, .. } => {
                let body = boxed_result(alloc, body.try_clone(alloc))?;
                repetition_behind(alloc, here, body)
            }
            Mark::Meet {
                to,
                outer,
                left,
                right,
                ..
            } => {
                let left = left.try_clone(alloc);
                let right = right.try_clone(alloc);
                let (left, right) = boxed_results(alloc, left, right)?;
                intersection_behind(alloc, *to, outer, left, right)
            }
            Mark::Within {
                to,
                outer,
                body,
                ..
            } => {
                let body = boxed_result(alloc, body.try_clone(alloc))?;
                restriction_behind(alloc, *to, outer, body)
            }
        }
    }
}

// The mark of an atom, of copies of these zones.
fn copied_atom(alloc: Global, here: &[Zone], begun: &[Zone]) -> Result<Mark, AllocError>
    ensures { IfOk result (λ copy. mark_of copy ≡ atom_mark here.now begun.now) }
{
    let here = copied(alloc, here)?;
    let begun = copied(alloc, begun)?;
    Ok(atom(alloc, here, begun))
}

/// The same zones once more.
pub fn copied(alloc: Global, zones: &[Zone]) -> Result<Vec<Zone>, AllocError>
    ensures { IfOk result (λ copy. copy.items ≡ zones.now) }
{
    let mut list = Vec::new(alloc);
    list.extend_from_slice(zones)?;
    Ok(list)
}
