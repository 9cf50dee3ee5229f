ghost use Rattle.std.specs.Prelude.{◌≡◌, ◌≤◌, []};
ghost use Rattle.tre_syntax.specs.Pattern.{pattern_tree};
ghost use Rattle.tre_syntax.specs.PatternTree.{atom, empty};
ghost use Rattle.tre_pairs.specs.declared.TheConstants.{TIME_MAX};
ghost use Rattle.tre_zone.specs.ZoneList.{IsApart, SetHolds, HoldExactly};
ghost use Rattle.tre_online.specs.Well.{IsWellNow, IsProp-IsWellNow, IsProp-IsApart};

use crate::told::{drop_told, keep_apart, known, put_told};
use std::alloc::{AllocError, Global};
use std::mem;
use tre_edges::Piece;
use tre_node::{Node, close, enter, idle, look, make};
use tre_pairs::TIME_MAX;
use tre_state::Names;
use tre_syntax::{Expr, Pattern};
use tre_trace::{PushFault, Segment};
use tre_zone::Zone;

/// The matches of a pattern over a trace that is still coming.
///
/// It keeps the pattern, when the trace ends so far, what held last, the zones that it told last,
/// and what may still become a match; and none of the segments.
#[derive(Drop)]
pub struct Session {
    alloc: Global,
    pattern: Pattern,
    progress: Progress,
    ghost in_time: { progress.at ≤ TIME_MAX },
    ghost well: { IsWellNow progress pattern } by { IsProp-IsWellNow progress pattern },
    ghost apart: { IsApart progress.told.items } by { IsProp-IsApart progress.told.items },
}

/// What a session keeps of its trace.
#[derive(Drop)]
pub struct Progress {
    at: u64,
    last: Option<u64>,
    // What was told last, and what was told before that. Both keep their room.
    told: Vec<Zone>,
    earlier: Vec<Zone>,
    node: Node,
}

impl Progress {
    ghost use Rattle.std.specs.Prelude.{None, true};
    ghost use Rattle.tre_syntax.specs.PatternTree.{atom, empty};
    ghost use Rattle.tre_node.specs.IsNode.{IsNew};

    // That of `eps`, of which nothing was read.
    fn none(alloc: Global) -> Progress
        ensures at { result.at ≡ 0 }
        ensures told { result.told.items ≡ [] }
        ensures node { IsNew (atom empty) None true result.node }
    {
        Progress {
            at: 0,
            last: None,
            told: Vec::new(alloc),
            earlier: Vec::new(alloc),
            node: idle(alloc),
        }
    }
}

// The pattern `eps`.
fn empty_pattern(alloc: Global) -> Pattern
    ensures { pattern_tree result ≡ atom empty }
{
    match Pattern::new(Expr::Eps, Names::new(alloc), Names::new(alloc)) {
        Some(pattern) => pattern,
        None => unreachable!(),
    }
}

impl Session {
    ghost use Rattle.std.specs.Prelude.{[], ◌∷◌, ◌++◌, List, None, true, IfOk, OnOk, OnErr, IfErr};
    ghost use Rattle.tre_edges.specs.declared.piece.Piece.{Piece};
    ghost use Rattle.tre_trace.specs.Trace.{end_of, Fits, IsRefusedFor};
    ghost use Rattle.tre_trace.specs.declared.segment.Segment.{Segment};
    ghost use Rattle.tre_node.specs.Copying.{IsCopy};
    ghost use Rattle.tre_node.specs.IsNode.{IsMade, IsNode};
    ghost use Rattle.tre_node.specs.NodeTree.{around_of, mark_of_node, tree_of_node};
    ghost use Rattle.tre_mark.specs.Nodes.{mark_node_count, form_count, HasNoInstances};
    ghost use Rattle.tre_syntax.specs.PatternTree.{node_count};
    ghost use Rattle.tre_syntax.specs.Pattern.{pattern_tree, names_of};
    ghost use Rattle.tre_zoneset.specs.ZoneSet.{IsZoneSet};
    ghost use Rattle.tre_online.specs.Session.{pattern_of, at_of, ended_of, node_of, kept_of, StandsFor, TellsNew, TellsLast};
    ghost use Rattle.tre_online.specs.Reading.{IsPieceFor, IsPastPiece, FindsInPiece, ReadsPiece, TellsAtEnd};

    /// A session that has read no segment.
    pub fn new(alloc: Global, pattern: Pattern) -> Result<Session, AllocError>
        ensures stands { IfOk result (λ session. StandsFor session []) }
        ensures tree { IfOk result (λ session.
            pattern_tree (pattern_of session) ≡ pattern_tree pattern) }
        ensures names { IfOk result (λ session.
            names_of (pattern_of session) ≡ names_of pattern) }
    {
        let node = make(alloc, pattern.expr(), None, true)?;
        let progress = Progress {
            at: 0,
            last: None,
            told: Vec::new(alloc),
            earlier: Vec::new(alloc),
            node,
        };
        Ok(Session {
            alloc,
            pattern,
            progress,
        })
    }

    /// When the trace ends so far, in ticks.
    pub fn at(&self) -> u64
        ensures { result ≡ at_of self.now }
    {
        self.progress.at
    }

    /// The pattern.
    pub fn pattern(&self) -> &Pattern
        ensures tree { pattern_tree result.now ≡ pattern_tree (pattern_of self.now) }
        ensures names { names_of result.now ≡ names_of (pattern_of self.now) }
    {
        &self.pattern
    }

    /// How many nodes there are in what may still become a match: never more than the pattern has,
    /// however many segments came.
    pub fn kept_nodes(&self) -> u64
        ensures all { result ≡ mark_node_count (kept_of self.now) }
        ensures same { HasNoInstances (pattern_tree (pattern_of self.now)) →
            result ≡ form_count (pattern_tree (pattern_of self.now)) }
        ensures bound { result ≤ node_count (pattern_tree (pattern_of self.now)) }
    {
        self.progress.node.nodes()
    }

    /// Reads a segment. What has become a match with it is then [`told`](Session::told): the
    /// matches that end within the segment, with an edge at its begin known and none at its end. A
    /// segment of no time is refused as `Zero`, whatever its end would be.
    pub fn segment(&mut self, segment: Segment) -> Result<(), PushFault>
        // Whatever it stood for, it then stands for that and the segment.
        ensures stands { (segments : List Segment) → StandsFor self.old segments →
            OnOk result (StandsFor self.new (segments ++ segment ∷ [])) }
        ensures fits { (segments : List Segment) → StandsFor self.old segments →
            OnOk result (Fits segments segment) }
        ensures tells { (segments : List Segment) → StandsFor self.old segments →
            OnOk result (TellsNew (pattern_tree (pattern_of self.old)) segments segment
            (ended_of self.old) (ended_of self.new)) }
        ensures tree { pattern_tree (pattern_of self.new) ≡ pattern_tree (pattern_of self.old) }
        ensures names { names_of (pattern_of self.new) ≡ names_of (pattern_of self.old) }

        // Each fault comes exactly where it says, and the session is unchanged after it.
        ensures refused { (segments : List Segment) → StandsFor self.old segments →
            IfErr result (IsRefusedFor segments segment) }
        ensures unchanged { OnErr result (self.new ≡ self.old) }
    {
        let piece = self.piece(segment)?;
        match self.read_over_copy(&piece) {
            Ok(progress) => {
                self.progress = progress;
                Ok(())
            }
            Err(_) => Err(PushFault::Memory),
        }
    }

    /// The zones that it told last, of a segment or of the end: none before the first segment.
    pub fn told(&self) -> &[Zone]
        ensures told { result.now ≡ ended_of self.now }
        ensures set { IsZoneSet result.now }
    {
        known(&self.progress.told);
        &self.progress.told
    }

    // Reads a segment as `segment` does, with no copy of what it keeps: so that is lost where
    // memory runs out, and the session stands for nothing from then on.
    #[inline(always)]
    pub(crate) fn go_on(&mut self, segment: Segment) -> Result<(), PushFault>
        ensures stands { (segments : List Segment) → StandsFor self.old segments →
            OnOk result (StandsFor self.new (segments ++ segment ∷ [])) }
        ensures fits { (segments : List Segment) → StandsFor self.old segments →
            OnOk result (Fits segments segment) }
        ensures tells { (segments : List Segment) → StandsFor self.old segments →
            OnOk result (TellsNew (pattern_tree (pattern_of self.old)) segments segment
            (ended_of self.old) (ended_of self.new)) }
        ensures tree { OnOk result
            (pattern_tree (pattern_of self.new) ≡ pattern_tree (pattern_of self.old)) }
        ensures names { OnOk result
            (names_of (pattern_of self.new) ≡ names_of (pattern_of self.old)) }
        ensures refused { (segments : List Segment) → StandsFor self.old segments →
            IfErr result (IsRefusedFor segments segment) }
    {
        let piece = self.piece(segment)?;
        match Session::read(self.alloc, &mut self.progress, &piece) {
            Ok(()) => Ok(()),
            Err(_) => {
                self.pattern = empty_pattern(self.alloc);
                self.progress = Progress::none(self.alloc);
                Err(PushFault::Memory)
            }
        }
    }

    /// The trace has ended, and these events happen at its end: bit i is set where event i does.
    /// What has become a match with them is then [`told`](Session::told), and ends there: nothing
    /// where no event happens. No segment may follow.
    pub fn close(&mut self, events: u64) -> Result<(), AllocError>
        ensures tells { (segments : List Segment) → StandsFor self.old segments →
            OnOk result (TellsLast (pattern_tree (pattern_of self.old)) segments events
            (ended_of self.old) (ended_of self.new)) }
        ensures tree { pattern_tree (pattern_of self.new) ≡ pattern_tree (pattern_of self.old) }
        ensures names { names_of (pattern_of self.new) ≡ names_of (pattern_of self.old) }
        ensures unchanged { OnErr result (self.new ≡ self.old) }
    {
        let told = self.last_told(events)?;
        self.progress.told = told;
        Ok(())
    }

    // The segment where the trace ends so far.
    #[inline(always)]
    fn piece(&self, segment: Segment) -> Result<Piece, PushFault>
        ensures ok { IfOk result (IsPieceFor self.now segment) }
        ensures err { (segments : List Segment) → at_of self.now ≡ end_of 0 segments →
            IfErr result (IsRefusedFor segments segment) }
    {
        if segment.len == 0 {
            return Err(PushFault::Zero);
        }
        let end = u128::from(self.progress.at) + u128::from(segment.len);
        if end > u128::from(TIME_MAX) {
            return Err(PushFault::TooLate { end });
        }
        Ok(Piece {
            begin: self.progress.at,
            segment,
            before: self.progress.last,
        })
    }

    // A copy of the progress that has gone over the piece.
    fn read_over_copy(&self, piece: &Piece) -> Result<Progress, AllocError>
        requires { IsPieceFor self.now piece.now.segment piece.now }
        ensures reads { IfOk result (λ next. ReadsPiece
            (mark_of_node piece.now.begin (node_of self.now)) (tree_of_node (node_of self.now))
            (ended_of self.now) piece.now next.told.items next.node) }
        ensures behind { IfOk result (λ next.
            IsPastPiece piece.now next.told.items next) }
    {
        let mut copy = self.copied()?;
        Session::read(self.alloc, &mut copy, piece)?;
        Ok(copy)
    }

    // The pattern under way and what was told last, once more.
    fn copied(&self) -> Result<Progress, AllocError>
        ensures node { IfOk result (λ copy. IsCopy (node_of self.now) copy.node) }
        ensures ended { IfOk result (λ copy. copy.told.items ≡ ended_of self.now) }
    {
        let progress = &self.progress;
        let told = progress.told.clone()?;
        let node = progress.node.try_clone(self.alloc)?;
        Ok(Progress {
            at: progress.at,
            last: progress.last,
            told,
            earlier: Vec::new(self.alloc),
            node,
        })
    }

    // The progress goes over the piece, and keeps what is told of it. Where memory runs out, it
    // isn't known what it is.
    #[inline(always)]
    fn read(alloc: Global, progress: &mut Progress, piece: &Piece) -> Result<(), AllocError>
        requires node { IsNode piece.now.begin progress.old.node }
        requires made { IsMade None true (around_of progress.old.node) }
        ensures reads { OnOk result (ReadsPiece
            (mark_of_node piece.now.begin progress.old.node) (tree_of_node progress.old.node)
            progress.old.told.items piece.now progress.new.told.items progress.new.node) }
        ensures behind { OnOk result (IsPastPiece piece.now progress.new.told.items progress.new) }
    {
        mem::swap(&mut progress.told, &mut progress.earlier);
        Session::find(alloc, &mut progress.node, piece, &mut progress.told)?;
        drop_told(alloc, &mut progress.told, &progress.earlier)?;
        progress.at = piece.begin + piece.segment.len;
        progress.last = Some(piece.segment.val);
        Ok(())
    }

    // Puts what the node tells of the piece, over which it goes, in place of the zones.
    #[inline(always)]
    fn find(
        alloc: Global,
        node: &mut Node,
        piece: &Piece,
        found: &mut Vec<Zone>,
    ) -> Result<(), AllocError>
        requires node { IsNode piece.now.begin node.old }
        requires made { IsMade None true (around_of node.old) }
        ensures { OnOk result (FindsInPiece (mark_of_node piece.now.begin node.old)
            (tree_of_node node.old) piece.now found.new.items node.new) }
    {
        look(alloc, node, piece)?;
        Session::tell(alloc, node, found)?;
        let end = piece.begin + piece.segment.len;
        let entering = [Zone::instants(piece.begin, end)];
        enter(alloc, node, &entering, piece)
    }

    // Puts what the node tells in place of the zones.
    #[inline(always)]
    fn tell(alloc: Global, node: &Node, told: &mut Vec<Zone>) -> Result<(), AllocError>
        ensures same { OnOk result (HoldExactly told.new.items (SetHolds
            ((around_of node.now).ended.items ++ (around_of node.now).inside.items))) }
        ensures set { OnOk result (IsZoneSet told.new.items) }
    {
        let around = node.around();
        put_told(told, &around.ended, &around.inside)?;
        keep_apart(alloc, told)
    }

    // What the node tells where the trace ends at the time with these events.
    fn found_at_end(
        alloc: Global,
        node: &Node,
        time: u64,
        events: u64,
    ) -> Result<Vec<Zone>, AllocError>
        requires node { IsNode time node.now }
        requires made { IsMade None true (around_of node.now) }
        requires limit { time ≤ TIME_MAX }
        ensures tells { IfOk result (λ told. TellsAtEnd time events (mark_of_node time node.now)
            (tree_of_node node.now) told.items) }
        ensures set { IfOk result (λ told. IsZoneSet told.items) }
    {
        let mut copy = node.try_clone(alloc)?;
        close(alloc, &mut copy, time, events)?;
        let mut told = Vec::new(alloc);
        Session::tell(alloc, &copy, &mut told)?;
        Ok(told)
    }

    // What is told where the trace ends with these events.
    fn last_told(&self, events: u64) -> Result<Vec<Zone>, AllocError>
        ensures tells { (segments : List Segment) → StandsFor self.now segments →
            IfOk result (λ told. TellsLast (pattern_tree (pattern_of self.now)) segments events
            (ended_of self.now) told.items) }
        ensures apart { IfOk result (λ told. IsApart told.items) }
    {
        if events == 0 {
            return Ok(Vec::new(self.alloc));
        }
        let progress = &self.progress;
        let mut told = Session::found_at_end(self.alloc, &progress.node, progress.at, events)?;
        drop_told(self.alloc, &mut told, &progress.told)?;
        Ok(told)
    }
}
