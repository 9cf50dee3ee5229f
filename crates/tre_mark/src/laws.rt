//! The laws of what a mark means.
//!
//! Each function does nothing: its contract is a law, and holds of every mark, every rest of a
//! trace and every pair of times.

ghost use Rattle.std.specs.Prelude.{ℕ, ◌≡◌, ◌*◌, ◌<◌, ◌≤◌, ◌↔◌};
ghost use Rattle.tre_pairs.specs.Cuts.{Crossing};
ghost use Rattle.tre_syntax.specs.PatternTree.{PatternTree, node_count};
ghost use Rattle.tre_syntax.specs.Rest.{Rest};
ghost use Rattle.tre_mark.specs.MarkTree.{MarkTree};
ghost use Rattle.tre_mark.specs.Marked.{Marked, IsBare, IsNothing, IsWellAt};
ghost use Rattle.tre_mark.specs.Nodes.{mark_node_count, form_count, HasNoInstances};

/// A mark means times, and not the numbers that name them.
pub fn scaling()
    ensures { (mark : MarkTree) (tree : PatternTree) (rest : Rest) (k a b n : ℕ) → 0 < k →
        Marked rest mark tree a b n ↔ Marked rest mark tree (k * a) (k * b) (k * n) }
{}

/// Each pair of a mark begins no later than the rest starts, and ends then or later.
pub fn crossing()
    ensures { (mark : MarkTree) (tree : PatternTree) (rest : Rest) (a b n : ℕ) →
        Marked rest mark tree a b n → Crossing rest.start (Marked rest mark tree) a b n }
{}

/// Where nothing is left of a mark, it stands for no pair.
pub fn bare()
    ensures { (mark : MarkTree) → IsBare mark → IsNothing mark }
{}

/// A mark that is well has no more nodes than its expression has forms, and these are no more than
/// its nodes. Where the expression has neither an intersection nor a restriction, the mark has one
/// node for each form.
pub fn nodes()
    ensures limit { (time : ℕ) (mark : MarkTree) (tree : PatternTree) → IsWellAt time mark tree →
        mark_node_count mark ≤ form_count tree }
    ensures exact { (time : ℕ) (mark : MarkTree) (tree : PatternTree) → IsWellAt time mark tree →
        HasNoInstances tree → mark_node_count mark ≡ form_count tree }
    ensures bound { (tree : PatternTree) → form_count tree ≤ node_count tree }
{}
