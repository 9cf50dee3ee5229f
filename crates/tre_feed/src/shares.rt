ghost use Rattle.std.specs.Prelude.{◌≡◌, ◌+◌, ◌≤◌, [], ◌∷◌, ◌++◌, length, map, List, IfOk, IfSome, OnOk};
ghost use Rattle.tre_feed.specs.Growth.{Keep};
ghost use Rattle.tre_feed.specs.Shares.{IsViewOf, AreShared};
ghost use Rattle.tre_syntax.specs.Pattern.{names_of};

use crate::group::Group;
use crate::lists::put_last;
use crate::view::View;
use std::alloc::{AllocError, Global};
use tre_syntax::Pattern;

/// Who shares a reader: the groups, and a view for each pattern.
#[derive(Drop)]
pub struct Shares {
    groups: Vec<Group>,
    views: Vec<View>,
}

/// Who shares a reader among these patterns. Each pattern joins the first group that has room for
/// its names, or else begins one.
pub fn share(alloc: Global, patterns: &[Pattern]) -> Result<Shares, AllocError>
    ensures { IfOk result (AreShared (map names_of patterns.now)) }
{
    let mut shares = Shares {
        groups: Vec::new(alloc),
        views: Vec::new(alloc),
    };
    for pattern in patterns {
        shares.add(alloc, pattern)?;
    }
    Ok(shares)
}

impl Shares {
    ghost use Rattle.tre_feed.specs.Shares.{groups_of, views_of};
    ghost use Rattle.tre_trace.specs.Reading.{Vocabulary};

    /// The names that each reader reads, and the views.
    pub fn into_parts(self) -> (Vec<Group>, Vec<View>)
        ensures groups { result.0.items ≡ groups_of self }
        ensures views { result.1.items ≡ views_of self }
    {
        (self.groups, self.views)
    }

    // One more pattern.
    fn add(&mut self, alloc: Global, pattern: &Pattern) -> Result<(), AllocError>
        ensures { (asked : List Vocabulary) → AreShared asked self.old →
            OnOk result (AreShared (asked ++ names_of pattern.now ∷ []) self.new) }
    {
        let view = view_for(alloc, &mut self.groups, pattern)?;
        put_last(&mut self.views, view)?;
        Ok(())
    }
}

/// The view of a pattern whose reader reads its own names alone.
pub fn alone(alloc: Global, pattern: &Pattern) -> Result<View, AllocError>
    ensures { IfOk result (IsViewOf (names_of pattern.now ∷ []) (names_of pattern.now)) }
{
    View::own(alloc, 0, pattern)
}

// Has a group take in the names of the pattern, and gives the pattern's view of it.
fn view_for(alloc: Global, groups: &mut Vec<Group>, pattern: &Pattern) -> Result<View, AllocError>
    ensures view { IfOk result (IsViewOf groups.new.items (names_of pattern.now)) }
    ensures keep { OnOk result (Keep groups.old.items groups.new.items) }
    ensures count { OnOk result (length groups.new.items ≤ length groups.old.items + 1) }
{
    match view_among(alloc, groups, pattern)? {
        Some(view) => Ok(view),
        None => view_alone(alloc, groups, pattern),
    }
}

// Has the first group that has room take them in, if there is one.
fn view_among(
    alloc: Global,
    groups: &mut [Group],
    pattern: &Pattern,
) -> Result<Option<View>, AllocError>
    ensures view { IfOk result (λ found. IfSome found (
        IsViewOf groups.new (names_of pattern.now))) }
    ensures keep { Keep groups.old groups.new }
{
    for number in 0..groups.len() {
        if let Some(view) = groups[number].admit(alloc, number, pattern)? {
            return Ok(Some(view));
        }
    }
    Ok(None)
}

// Begins a group with them, behind the others.
fn view_alone(alloc: Global, groups: &mut Vec<Group>, pattern: &Pattern) -> Result<View, AllocError>
    ensures view { IfOk result (IsViewOf groups.new.items (names_of pattern.now)) }
    ensures groups { OnOk result (
        groups.new.items ≡ groups.old.items ++ names_of pattern.now ∷ []) }
{
    let number = groups.len();
    put_last(groups, Group::of(pattern)?)?;
    View::own(alloc, number, pattern)
}
