// What the reader keeps of the statements that it has read.
ghost use Rattle.std.specs.Prelude.{◌≡◌, ◌≢◌, ◌==◌, ◌&&◌, not, length, map, ◌∷◌, ℕ, List, [], true, false, OnOk};
ghost use Rattle.tre_vcd.specs.Timescale.{tick_of};
ghost use Rattle.tre_vcd.specs.VcdReading.{Statement, scope, upscope, var, timescale, tick_at, definitions, time, change, scalar, wide, dump, dump_end, is_defined, in_dump, scopes_at, is_signal, is_event};
ghost use Rattle.tre_vcd.specs.Kept.{KnowsOfPast, ends_true, tick_kept, Declares, DeclaresNone, valuation_behind, events_at};

use crate::brief::Brief;
use crate::scopes::Scopes;
use crate::timescale::{Tick, tick_of};
use crate::variable::set_value;
use crate::variables::Variables;
use std::alloc::{AllocError, Global};
use tre_state::Names;

// Each field is what a look back over the statements finds.
#[derive(Drop)]
pub struct Past {
    pub alloc: Global,
    pub is_defined: bool,
    pub in_dump: bool,
    pub time: u64,
    pub scopes: Scopes,
    // What the first `$timescale` says, once there is one.
    pub tick: Option<Option<Tick>>,
    pub propositions: Variables,
    pub events: Variables,
    // Once the declarations have ended, the identifiers of the propositions.
    pub brief: Brief,
    // Bit k is the value of proposition k.
    pub values: u64,
    // Bit k says whether event k happened at the time.
    pub happened: u64,
}

impl Past {
    // Nothing was read.
    pub fn new(alloc: Global) -> Past
        ensures { (names event_names : List (List ℕ)) → KnowsOfPast names event_names result [] }
    {
        Past {
            alloc,
            is_defined: false,
            in_dump: false,
            time: 0,
            scopes: Scopes::new(alloc),
            tick: None,
            propositions: Variables::new(alloc),
            events: Variables::new(alloc),
            brief: Brief::new(),
            values: 0,
            happened: 0,
        }
    }

    // A scope opens.
    pub fn enter(&mut self, name: &[u8]) -> Result<(), AllocError>
        ensures { (names event_names : List (List ℕ)) (past : List Statement) →
            KnowsOfPast names event_names self.old past →
            OnOk result (KnowsOfPast names event_names self.new (scope name.now ∷ past)) }
    {
        self.scopes.enter(name)
    }

    // The innermost scope closes.
    pub fn leave(&mut self)
        ensures { (names event_names : List (List ℕ)) (past : List Statement) →
            KnowsOfPast names event_names self.old past →
            KnowsOfPast names event_names self.new (upscope ∷ past) }
    {
        self.scopes.leave();
    }

    // A `$timescale` has these tokens, the first of which are kept.
    pub fn measure(&mut self, kept: &[Vec<u8>])
        ensures { (names event_names : List (List ℕ)) (past : List Statement)
            (tokens : List (List ℕ)) → KnowsOfPast names event_names self.old past →
            tick_of (map (λ token. token.items) kept.now) ≡ tick_of tokens →
            KnowsOfPast names event_names self.new (timescale tokens ∷ past) }
    {
        if self.tick.is_none() {
            self.tick = Some(tick_of(kept));
        }
    }

    // How long a tick takes, where this is known.
    pub fn tick(&self) -> Option<Tick>
        ensures kept { result ≡ tick_kept self.now }
        ensures knows { (names event_names : List (List ℕ)) (past : List Statement) →
            KnowsOfPast names event_names self.now past → result ≡ tick_at past }
    {
        match self.tick {
            Some(tick) => tick,
            None => None,
        }
    }

    // A proposition of this path is declared with this identifier.
    pub fn declare(
        &mut self,
        names: &Names,
        path: &[u8],
        identifier: &[u8],
    ) -> Result<(), AllocError>
        ensures { (event_names : List (List ℕ)) (past : List Statement) (tokens : List (List ℕ)) →
            KnowsOfPast names.now event_names self.old past → is_defined past ≡ false →
            Declares is_signal (scopes_at past) tokens identifier.now path.now →
            DeclaresNone is_event (scopes_at past) tokens →
            OnOk result (KnowsOfPast names.now event_names self.new (var tokens ∷ past)) }
    {
        self.propositions
            .declare(self.alloc, names, path, identifier)
    }

    // An event of this path is declared with this identifier.
    pub fn declare_event(
        &mut self,
        events: &Names,
        path: &[u8],
        identifier: &[u8],
    ) -> Result<(), AllocError>
        ensures { (names : List (List ℕ)) (past : List Statement) (tokens : List (List ℕ)) →
            KnowsOfPast names events.now self.old past → is_defined past ≡ false →
            Declares is_event (scopes_at past) tokens identifier.now path.now →
            DeclaresNone is_signal (scopes_at past) tokens →
            OnOk result (KnowsOfPast names events.now self.new (var tokens ∷ past)) }
    {
        self.events.declare(self.alloc, events, path, identifier)
    }

    // The declarations end, those of the propositions of these names among them.
    pub fn define(&mut self, names: &Names)
        ensures { (event_names : List (List ℕ)) (past : List Statement) →
            KnowsOfPast names.now event_names self.old past →
            KnowsOfPast names.now event_names self.new (definitions ∷ past) }
    {
        self.is_defined = true;
        self.brief = Brief::of(names, &self.propositions.list);
    }

    // A time is reached.
    pub fn reach(&mut self, ticks: u64)
        ensures knows { (names event_names : List (List ℕ)) (past : List Statement) →
            KnowsOfPast names event_names self.old past →
            KnowsOfPast names event_names self.new (time ticks ∷ past) }
        ensures defined { self.new.is_defined ≡ self.old.is_defined }
    {
        if ticks != self.time {
            self.time = ticks;
            self.happened = 0;
        }
    }

    // Another time is reached.
    #[inline(always)]
    pub fn reach_next(&mut self, ticks: u64)
        ensures knows { (names event_names : List (List ℕ)) (past : List Statement) →
            ticks ≢ self.old.time → KnowsOfPast names event_names self.old past →
            KnowsOfPast names event_names self.new (time ticks ∷ past) }
        ensures defined { self.new.is_defined ≡ self.old.is_defined }
    {
        self.time = ticks;
        self.happened = 0;
    }

    // An identifier changes to letters that end with this value, as a vector.
    #[inline(always)]
    pub fn change(&mut self, identifier: &[u8], value: bool)
        ensures knows { (names event_names : List (List ℕ)) (past : List Statement) →
            KnowsOfPast names event_names self.old past →
            is_defined past ≡ true → (letters : List ℕ) → value ≡ ends_true letters →
            KnowsOfPast names event_names self.new (change wide identifier.now letters ∷ past) }
        ensures defined { self.new.is_defined ≡ self.old.is_defined }
    {
        let changed = self.brief.having(&self.propositions, identifier);
        set_value(&mut self.values, changed, value);
    }

    // Whether a scalar change may say an event now.
    #[inline(always)]
    fn reads_events(&self) -> bool
        ensures { result ≡ (not self.now.in_dump && not (length self.now.events.list.items == 0)) }
    {
        !self.events.is_empty() && !self.in_dump
    }

    // An identifier changes to letters that end with this value, as a scalar, which says its event.
    #[inline(always)]
    pub fn change_scalar(&mut self, identifier: &[u8], value: bool)
        ensures knows { (names event_names : List (List ℕ)) (past : List Statement) →
            KnowsOfPast names event_names self.old past →
            is_defined past ≡ true → (letters : List ℕ) → value ≡ ends_true letters →
            KnowsOfPast names event_names self.new (change scalar identifier.now letters ∷ past) }
        ensures defined { self.new.is_defined ≡ self.old.is_defined }
    {
        let changed = self.brief.having(&self.propositions, identifier);
        set_value(&mut self.values, changed, value);
        if self.reads_events() {
            self.say_event(identifier);
        }
    }

    // The events of this identifier happen. Apart from the code of its caller.
    #[inline(never)]
    fn say_event(&mut self, identifier: &[u8])
        ensures happened { (values : ℕ) (names event_names : List (List ℕ))
            (past : List Statement) (letters : List ℕ) →
            KnowsOfPast names event_names (record self.old { values = values }) past →
            in_dump past ≡ false → self.new.happened
            ≡ events_at (change scalar identifier.now letters ∷ past) event_names }
        ensures same { self.new ≡ record self.old { happened = self.new.happened } }
    {
        let said = self.events.having(identifier);
        set_value(&mut self.happened, said, true);
    }

    // A dump section opens.
    pub fn open_dump(&mut self)
        ensures { (names event_names : List (List ℕ)) (past : List Statement) →
            KnowsOfPast names event_names self.old past →
            KnowsOfPast names event_names self.new (dump ∷ past) }
    {
        self.in_dump = true;
    }

    // The dump section closes.
    pub fn close_dump(&mut self)
        ensures { (names event_names : List (List ℕ)) (past : List Statement) →
            KnowsOfPast names event_names self.old past →
            KnowsOfPast names event_names self.new (dump_end ∷ past) }
    {
        self.in_dump = false;
    }

    // The values of the propositions now.
    pub fn valuation(&self) -> u64
        ensures { (names event_names : List (List ℕ)) (past : List Statement) →
            KnowsOfPast names event_names self.now past →
            result ≡ valuation_behind past names }
    {
        self.values
    }

    // The events that happened at the time.
    pub fn events(&self) -> u64
        ensures { (names event_names : List (List ℕ)) (past : List Statement) →
            KnowsOfPast names event_names self.now past →
            result ≡ events_at past event_names }
    {
        self.happened
    }
}
