// Names that a variable of the dump declares.
ghost use Rattle.std.specs.Prelude.{◌≡◌, ◌∷◌, ℕ, List, false, OnOk};
ghost use Rattle.tre_define.specs.Signals.{SignalDefined};
ghost use Rattle.tre_vcd.specs.VcdReading.{Statement, var, path, scopes_at, is_defined, is_signal, is_event};
ghost use Rattle.tre_vcd.specs.Kept.{KnowsOfPast, KnowsNeeded, Declares, DeclaresNone};
ghost use Rattle.tre_vcd.specs.Offers.{KnowsOffers};

use crate::found::Found;
use crate::past::Past;
use std::alloc::AllocError;
use tre_state::Names;

// A proposition of this reference is declared.
pub fn declare_proposition(
    names: &Names,
    past: &mut Past,
    needed: &mut Found,
    reference: &[u8],
    identifier: &[u8],
) -> Result<(), AllocError>
    ensures knows { (event_names : List (List ℕ)) (before : List Statement)
        (tokens : List (List ℕ)) → KnowsOfPast names.now event_names past.old before →
        is_defined before ≡ false → KnowsNeeded before needed.old →
        Declares is_signal (scopes_at before) tokens identifier.now
        (path (scopes_at before) reference.now) →
        DeclaresNone is_event (scopes_at before) tokens →
        OnOk result (KnowsOfPast names.now event_names past.new (var tokens ∷ before)
        × KnowsNeeded (var tokens ∷ before) needed.new) }
    ensures offers { (definitions : List SignalDefined) (before : List Statement) →
        KnowsOffers definitions before needed.old →
        KnowsOffers definitions before needed.new }
    ensures same_names { needed.new.needed ≡ needed.old.needed }
{
    let own_path = past.scopes.path(past.alloc, reference)?;
    let name = own_path.as_slice();
    needed.declare(name);
    past.declare(names, name, identifier)
}

// An event of this reference is declared.
pub fn declare_event(
    events: &Names,
    past: &mut Past,
    needed: &mut Found,
    reference: &[u8],
    identifier: &[u8],
) -> Result<(), AllocError>
    ensures knows { (names : List (List ℕ)) (before : List Statement)
        (tokens : List (List ℕ)) → KnowsOfPast names events.now past.old before →
        is_defined before ≡ false → KnowsNeeded before needed.old →
        Declares is_event (scopes_at before) tokens identifier.now
        (path (scopes_at before) reference.now) →
        DeclaresNone is_signal (scopes_at before) tokens →
        OnOk result (KnowsOfPast names events.now past.new (var tokens ∷ before)
        × KnowsNeeded (var tokens ∷ before) needed.new) }
    ensures offers { (definitions : List SignalDefined) (before : List Statement) →
        KnowsOffers definitions before needed.old →
        KnowsOffers definitions before needed.new }
    ensures same_names { needed.new.needed ≡ needed.old.needed }
{
    let own_path = past.scopes.path(past.alloc, reference)?;
    let name = own_path.as_slice();
    needed.declare_event(name);
    past.declare_event(events, name, identifier)
}
