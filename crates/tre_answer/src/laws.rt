//! Laws of what is asked of an input and of the zones that answer it, each as a function whose
//! contract it is.

ghost use Rattle.std.specs.Prelude.{◌≡◌, ◌∷◌, ◌++◌, ◌<◌, ◌≤◌, ◌⊎◌, ◌↔◌, ℕ, Bool, true, false, List, [], length};
ghost use Rattle.std.specs.List.{AllZip};
ghost use Rattle.tre_answer.specs.Alike.{SayTheSame, WantTheSame};
ghost use Rattle.tre_answer.specs.Findings.{IsCheckedAnswer};
ghost use Rattle.tre_answer.specs.Request.{request_for, sought_in};
ghost use Rattle.tre_answer.specs.Said.{IsForGood, SaysPairs, end_for, offline_of, zones_told};
ghost use Rattle.tre_answer.specs.Wanted.{IsWanted, AreZonesOf, IsOfflineAnswer, AreTooMany};
ghost use Rattle.tre_answer.specs.declared.asked.Asked.{Asked};
ghost use Rattle.tre_answer.specs.declared.asked.Definitions.{Definitions};
ghost use Rattle.tre_syntax.specs.Meaning.{Matches};
ghost use Rattle.tre_tell.specs.Blocks.{AreAccounts};
ghost use Rattle.tre_tell.specs.Lines.{SaysAll, SaysSoFar};
ghost use Rattle.tre_tell.specs.Online.{IsOnlineAnswer, blocks_for, fronts};
ghost use Rattle.tre_tell.specs.Request.{AreReadAs, Request};
ghost use Rattle.tre_tell.specs.Sought.{Sought};
ghost use Rattle.tre_tell.specs.Transcript.{Account};
ghost use Rattle.tre_trace.specs.Reading.{Stretch, no_names, segments_for};
ghost use Rattle.tre_trace.specs.Trace.{Timeline};
ghost use Rattle.tre_words.specs.declared.job.Job.{Job};
ghost use Rattle.tre_zone.specs.ZoneList.{SetHolds, HoldExactly};
ghost use Rattle.tre_zone.specs.declared.zone_bounds.ZoneBounds.{ZoneBounds};

/// Canonical zones depend on the pairs that are wanted alone, and not on the pattern or the bytes:
/// two requests that want the same of two inputs have one answer, and either that or too many
/// zones. And the zones are the same wherever the same pairs are wanted, whatever the scales, the
/// limits and the ends of the inputs (`zones`).
pub fn one_canonical_answer()
    ensures text { (one other : Request) (bytes others text second : List ℕ) →
        WantTheSame one other bytes others → IsOfflineAnswer one bytes text →
        IsOfflineAnswer other others second → text ≡ second }
    ensures count { (one other : Request) (bytes others : List ℕ) (count second : ℕ) →
        WantTheSame one other bytes others → AreTooMany one bytes count →
        AreTooMany other others second → count ≡ second }
    ensures apart { (one other : Request) (bytes others text : List ℕ) (count : ℕ) →
        WantTheSame one other bytes others → IsOfflineAnswer one bytes text →
        AreTooMany other others count → ⊥ }
    ensures itself { (request : Request) (bytes : List ℕ) → request.job.normal ≡ true →
        WantTheSame request request bytes bytes }
    ensures zones { (patterns others : List Sought) (traces seconds : List Timeline)
        (zones strips : List ZoneBounds) →
        AreZonesOf true (IsWanted patterns traces) zones →
        AreZonesOf true (IsWanted others seconds) strips →
        ((a b n : ℕ) → 0 < n → a ≤ b →
        IsWanted patterns traces a b n ↔ IsWanted others seconds a b n) → zones ≡ strips }
{}

/// Canonical zones of checks depend on what becomes of these alone, and not on their patterns or
/// the bytes: where two requests have findings of the same names, verdicts and shown pairs, they
/// have one text, at one scale and with one end.
pub fn one_checked_text()
    ensures { (one other : Request) (bytes others : List ℕ) (failed second : ℕ)
        (text texts : List ℕ) (first : IsCheckedAnswer one bytes failed text)
        (last : IsCheckedAnswer other others second texts) → one.job.normal ≡ true →
        other.job.normal ≡ true → one.job.scale ≡ other.job.scale →
        end_for one bytes ≡ end_for other others → SayTheSame first.findings last.findings →
        text ≡ texts }
{}

/// What is told of a pattern without another, and what both match, make up what the first matches.
/// `left` and `taken` are the zones of the difference, and those of the second pattern.
pub fn parts_of_a_difference()
    ensures { (pattern other : Sought) (trace second : Timeline) (left taken : List ZoneBounds) →
        HoldExactly left (IsWanted (pattern ∷ other ∷ []) (trace ∷ second ∷ [])) →
        HoldExactly taken (Matches other.tree second) →
        (a b n : ℕ) → 0 < n → a ≤ b → Matches pattern.tree trace a b n
        ↔ (SetHolds left a b n
        ⊎ (Matches pattern.tree trace a b n × Matches other.tree second a b n)) }
{}

/// The text of an answer is lines of three ranges and the end, and in between the lines `at` where
/// it is told as the input comes. A pair lies in the three ranges of a line exactly where it is
/// wanted: nobody has to know the bounds of zones to read it. So it is of the blocks that were told
/// of an input so far, however the run ended (`so_far`).
pub fn printed_answer()
    ensures offline { (request : Request) (bytes text : List ℕ) (traces : List Timeline) →
        AreReadAs request bytes traces → IsOfflineAnswer request bytes text →
        SaysPairs request.job.scale (IsWanted request.patterns traces) (end_for request bytes)
        text }
    ensures online { (request : Request) (bytes front text : List ℕ) (traces : List Timeline) →
        AreReadAs request bytes traces → IsOnlineAnswer request bytes front text →
        SaysAll request.job.scale request.patterns traces
        (segments_for no_names (request.recording true bytes).stretches) text }
    ensures so_far { (job : Job) (definitions : Definitions) (asked : Asked) (closed : Bool)
        (bytes : List ℕ) (told more : List Stretch) (accounts : List Account) →
        told ++ more ≡ ((request_for job definitions asked).recording closed bytes).stretches →
        AreAccounts (sought_in asked) (fronts (sought_in asked) told) accounts →
        SaysSoFar job.scale (sought_in asked) (fronts (sought_in asked) told)
        (segments_for no_names told)
        (blocks_for (request_for job definitions asked) accounts told) }
{}

/// What was told of an input so far stays true however it goes on, and nothing is late: where it
/// becomes a trace, each pair that was told is a match, and each match that ends before what was
/// read does was told. So it is of each pattern.
pub fn told_for_good()
    ensures { (job : Job) (definitions : Definitions) (asked : Asked) (bytes more : List ℕ)
        (accounts : List Account) (traces : List Timeline) →
        AreAccounts (sought_in asked) (fronts (sought_in asked)
        ((request_for job definitions asked).recording false bytes).stretches) accounts →
        AreReadAs (request_for job definitions asked) (bytes ++ more) traces →
        AllZip IsForGood accounts traces }
{}

/// Both ways of matching tell the same pairs of one input, if it has a stretch: the blocks with
/// what the end completes, and the zones of a run that has the same words but `--online`.
pub fn both_ways()
    ensures { (request : Request) (bytes front text second : List ℕ)
        (online : IsOnlineAnswer request bytes front text)
        (offline : IsOfflineAnswer (offline_of request) bytes second) →
        length request.patterns ≡ 1 → 0 < length (request.recording true bytes).stretches →
        (a b n : ℕ) → 0 < n → a ≤ b →
        SetHolds (zones_told online.accounts) a b n ↔ SetHolds offline.zones a b n }
{}
