// The same pattern under way once more.
ghost use Rattle.std.specs.Prelude.{◌≡◌, IfOk};
ghost use Rattle.tre_node.specs.Copying.{IsCopy, IsLike};

use crate::node::{Around, Node, Stretch};
use std::alloc::{AllocError, Global};
use tre_syntax::{boxed_result, boxed_results};
use tre_zone::Zone;

impl Node {
    /// The same once more, but for what is of the present piece alone. It goes as deep as the node
    /// does.
    pub fn try_clone(&self, alloc: Global) -> Result<Node, AllocError>
        ensures { IfOk result (λ copy. IsCopy self.now copy) }
    {
        match self {
            Node::Eps(around) => Ok(Node::Eps(like(alloc, around))),
            Node::Lit {
                around,
                state,
                begun,
            } => {
                let begun = copied_stretches(alloc, begun)?;
                let Ok(state) = state.try_clone(alloc) else {
                    return Err(AllocError);
                };
                Ok(Node::Lit {
                    around: like(alloc, around),
                    state,
                    begun,
                })
            }
            Node::Rise(around, state) => {
                let Ok(state) = state.try_clone(alloc) else {
                    return Err(AllocError);
                };
                Ok(Node::Rise(like(alloc, around), state))
            }
            Node::Fall(around, state) => {
                let Ok(state) = state.try_clone(alloc) else {
                    return Err(AllocError);
                };
                Ok(Node::Fall(like(alloc, around), state))
            }
            Node::Event(around, number) => Ok(Node::Event(like(alloc, around), *number)),
            Node::Seq {
                around,
                left,
                right,
            } => {
                let left = left.try_clone(alloc);
                let Ok((left, right)) = boxed_results(alloc, left, right.try_clone(alloc)) else {
                    return Err(AllocError);
                };
                Ok(Node::Seq {
                    around: like(alloc, around),
                    left,
                    right,
                })
            }
            Node::Alt {
                around,
                left,
                right,
            } => {
                let left = left.try_clone(alloc);
                let Ok((left, right)) = boxed_results(alloc, left, right.try_clone(alloc)) else {
                    return Err(AllocError);
                };
                Ok(Node::Alt {
                    around: like(alloc, around),
                    left,
                    right,
                })
            }
            Node::Meet {
                around,
                reach,
                outer,
                most,
                left,
                right,
            } => {
                let outer = copied_zones(alloc, outer)?;
                let left = left.try_clone(alloc);
                let Ok((left, right)) = boxed_results(alloc, left, right.try_clone(alloc)) else {
                    return Err(AllocError);
                };
                Ok(Node::Meet {
                    around: like(alloc, around),
                    reach: *reach,
                    outer,
                    most: *most,
                    left,
                    right,
                })
            }
            Node::Star { around, body } => {
                let Ok(body) = boxed_result(alloc, body.try_clone(alloc)) else {
                    return Err(AllocError);
                };
                Ok(Node::Star {
                    around: like(alloc, around),
                    body,
                })
            }
            Node::Within {
                around,
                reach,
                interval,
                outer,
                most,
                body,
            } => {
                let outer = copied_zones(alloc, outer)?;
                let Ok(body) = boxed_result(alloc, body.try_clone(alloc)) else {
                    return Err(AllocError);
                };
                Ok(Node::Within {
                    around: like(alloc, around),
                    reach: *reach,
                    interval: *interval,
                    outer,
                    most: *most,
                    body,
                })
            }
        }
    }
}

// What is around the copy of a node, with empty lists. It takes no memory.
fn like(alloc: Global, around: &Around) -> Around
    ensures { IsLike around.now result }
{
    Around {
        longest: around.longest,
        whole: around.whole,
        lives: false,
        busy: around.busy,
        inside: Vec::new(alloc),
        ended: Vec::new(alloc),
        mid: Vec::new(alloc),
    }
}

fn copied_zones(alloc: Global, zones: &[Zone]) -> Result<Vec<Zone>, AllocError>
    ensures { IfOk result (λ copy. copy.items ≡ zones.now) }
{
    let mut list = Vec::new(alloc);
    list.extend_from_slice(zones)?;
    Ok(list)
}

fn copied_stretches(alloc: Global, stretches: &[Stretch]) -> Result<Vec<Stretch>, AllocError>
    ensures { IfOk result (λ copy. copy.items ≡ stretches.now) }
{
    let mut list = Vec::new(alloc);
    list.extend_from_slice(stretches)?;
    Ok(list)
}
