ghost use Rattle.std.specs.Prelude.{◌≡◌, ◌≢◌, ◌≤◌, length, Option, IfNone, IfSome};
ghost use Rattle.tre_parts.specs.Format.{Format, KeepsTime};
ghost use Rattle.tre_parts.specs.declared.said.Said.{Said};
ghost use Rattle.tre_trace.specs.Reading.{Vocabulary, events_for};
ghost use Rattle.tre_trace.specs.declared.fault.TraceKind.TheVariants.{Spent, Memory};
ghost use Rattle.tre_parts.specs.Skims.{Skims};
ghost use Rattle.tre_parts.specs.Walk.{HasNoSeparator, SeparatedAt, TellsPart};

use crate::{PART_MAX, Said, Skimmed, Spot};
use tre_trace::{Segment, TraceKind};

/// Reads the parts of a format, one after the other.
pub trait PartReader {
    /// What later parts need to know of the earlier ones.
    ghost State: { Type 0 };

    /// What the format hangs on, such as the unit of time.
    ghost Terms: { Type 0 };

    /// The terms that it reads by. No call changes them.
    ghost terms: { Self → Terms };

    /// The names whose truth and happening it reads. No call changes them.
    ghost names: { Self → Vocabulary };

    /// The format, by these terms.
    ghost format: { Terms → Format State };

    /// The reader knows this much of the parts that it has read.
    ghost holds: { Self → State → Type 0 };

    /// The place of the first separator, where there is one.
    fn separator_in(&self, bytes: &[u8]) -> Option<usize>
        ensures none { IfNone result
            (HasNoSeparator (format (terms self.now)).separates bytes.now) }
        ensures first { IfSome result (SeparatedAt (format (terms self.now)).separates bytes.now) };

    /// Reads whole parts from the front of the bytes on, each with the separator behind it, as long
    /// as they are plain, and puts their segments behind the others. It may stop before any part,
    /// and stops before one that has a fault: `read` is asked for that.
    fn skim(&mut self, bytes: &[u8], segments: &mut Vec<Segment>) -> Skimmed
        requires short { length bytes.now ≤ PART_MAX }
        ensures skims { (state : State) → holds self.old state →
            Skims (names self.old) (format (terms self.old)) (holds self.new) state bytes.now
            segments.old.items segments.new.items result }
        ensures within { result.bytes ≤ length bytes.now }
        ensures same_terms { terms self.new ≡ terms self.old }
        ensures same_names { names self.new ≡ names self.old };

    /// Reads the next part. After `Wrong` it is not asked again, so nothing is said of what it then
    /// knows.
    fn read(&mut self, part: &[u8]) -> Said
        requires short { length part.now ≤ PART_MAX }
        ensures tells { (state : State) → holds self.old state →
            TellsPart (names self.old) ((format (terms self.old)).says state part.now) (holds
            self.new)
            result }
        ensures kinds { result ≢ Said.Wrong Spent }
        ensures same_terms { terms self.new ≡ terms self.old }
        ensures same_names { names self.new ≡ names self.old };

    /// The events at the end of an input that ends here: bit i says whether event i happens.
    fn last(&self) -> u64
        ensures { (state : State) → holds self.now state →
            result ≡ events_for (names self.now) ((format (terms self.now)).last state) };

    /// The fault of an input that ends here, if it has one.
    fn at_end(&self) -> Option<TraceKind>
        ensures fault { (state : State) → holds self.now state →
            result ≡ (format (terms self.now)).at_end state }
        ensures kinds { IfSome result (λ kind. kind ≢ Spent) }
        ensures never_memory { IfSome result (λ kind. kind ≢ Memory) };

    /// The place that a fault of a part is told with.
    fn place(&self, spot: Spot) -> u64
        ensures { result ≡ (format (terms self.now)).place spot };

    /// The segments are told in the order of time.
    ghost keeps_time: { (terms : Terms) → KeepsTime (format terms) };
}
