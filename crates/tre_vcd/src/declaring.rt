// The tokens of the declarations.
ghost use Rattle.std.specs.Prelude.{◌≡◌, ◌≢◌, ℕ, List, [], ◌∷◌, ◌++◌, map, take, false, ◌&&◌, OnOk};
ghost use Rattle.tre_parts.specs.Walk.{TellsPart};
ghost use Rattle.tre_parts.specs.declared.said.Said.{Said};
ghost use Rattle.tre_trace.specs.declared.fault.TraceKind.TheVariants.{Spent};
ghost use Rattle.tre_define.specs.Signals.{SignalDefined};
ghost use Rattle.tre_vcd.specs.VcdReading.{scopes_at, Statement, var, nothing, section, is_defined, goes_to, command_says, section_says, scope_says, declaration_says, token_at};
ghost use Rattle.tre_vcd.specs.Sections.{Holds, KnowsPast, asked_of_reader, terms_kept, command_of};
ghost use Rattle.tre_vcd.specs.Offers.{KnowsOffers};
ghost use Rattle.tre_vcd.specs.Defined.{KnowsSignals};
ghost use Rattle.tre_vcd.specs.Kept.{AreScopes, IsQuiet, KnowsOfPast, KnowsNeeded};

use crate::command::{Command, command_of};
use crate::declaration::{declare_event, declare_proposition};
use crate::inside::Inside;
use crate::offer::offer_in;
use crate::token::{is, is_end, is_event, is_misplaced, is_signal};
use crate::token_reader::TokenReader;
use std::alloc::{AllocError, Global};
use tre_parts::Said;
use tre_trace::TraceKind;

// How many tokens of an open section are kept. No command takes more than five, and the sixth says
// that there are more.
const KEPT_MAX: usize = 6;

impl TokenReader {
    // Reads a token among the declarations, where no section is open.
    pub(crate) fn read_command(&mut self, token: &[u8]) -> Said
        ensures tells { (past : List Statement) →
            Holds self.old (record { past = past; inside = nothing }) →
            is_defined past ≡ false →
            TellsPart (asked_of_reader self.old) (command_says (terms_kept self.old) past token.now)
            (Holds self.new) result }
        ensures kinds { result ≢ Said.Wrong Spent }
        ensures same_terms { terms_kept self.new ≡ terms_kept self.old }
        ensures same_names { asked_of_reader self.new ≡ asked_of_reader self.old }
    {
        if is_misplaced(token) {
            return Said::Wrong(TraceKind::BadToken);
        }
        if is(token, "$upscope") && self.past.scopes.is_empty() {
            return Said::Wrong(TraceKind::BadToken);
        }
        if is(token, "$enddefinitions") && !self.has_tick() {
            return Said::Wrong(TraceKind::BadScale);
        }
        if is(token, "$enddefinitions") && !self.needed.is_declared() {
            return Said::Wrong(TraceKind::UnknownName);
        }
        self.inside = Inside::Section(command_of(token));
        Said::Nothing
    }

    // Keeps a token of the open section, where it is one of the first.
    fn keep(&mut self, token: &[u8]) -> Said
        ensures tells { (past : List Statement) (command : List ℕ) (tokens : List (List ℕ)) →
            Holds self.old (record { past = past; inside = section command tokens }) →
            TellsPart (asked_of_reader self.old) (goes_to past (section command (tokens ++
            token.now ∷ [])))
            (Holds self.new)
            result }
        ensures kinds { result ≢ Said.Wrong Spent }
        ensures same_terms { terms_kept self.new ≡ terms_kept self.old }
        ensures same_names { asked_of_reader self.new ≡ asked_of_reader self.old }
    {
        if self.tokens.as_slice().len() >= KEPT_MAX {
            return Said::Nothing;
        }
        match push_token(&mut self.tokens, self.past.alloc, token) {
            Ok(()) => Said::Nothing,
            Err(_) => Said::Wrong(TraceKind::Memory),
        }
    }

    // Nothing is open any more.
    fn close(&mut self)
        ensures holds { (past : List Statement) → KnowsPast self.old past →
            Holds self.new (record { past = past; inside = nothing }) }
        ensures same_terms { terms_kept self.new ≡ terms_kept self.old }
        ensures same_names { asked_of_reader self.new ≡ asked_of_reader self.old }
    {
        self.inside = Inside::Nothing;
        self.tokens.clear();
    }

    // A scope opens by the section that ends.
    fn end_scope(&mut self) -> Said
        ensures tells { (past : List Statement) (word : List ℕ) (tokens : List (List ℕ)) →
            Holds self.old (record { past = past; inside = section word tokens }) →
            TellsPart (asked_of_reader self.old) (scope_says past tokens) (Holds self.new) result }
        ensures kinds { result ≢ Said.Wrong Spent }
        ensures same_terms { terms_kept self.new ≡ terms_kept self.old }
        ensures same_names { asked_of_reader self.new ≡ asked_of_reader self.old }
    {
        if self.tokens.as_slice().len() < 2 {
            return Said::Wrong(TraceKind::BadToken);
        }
        match self.past.enter(&self.tokens.as_slice()[1]) {
            Ok(()) => {
                self.close();
                Said::Nothing
            }
            Err(_) => Said::Wrong(TraceKind::Memory),
        }
    }

    // What the tokens offer is read by definitions, and what they declare by names without one.
    fn declare_all(&mut self) -> Result<(), AllocError>
        ensures knows { (past : List Statement) (word : List ℕ) (tokens : List (List ℕ)) →
            Holds self.old (record { past = past; inside = section word tokens }) →
            OnOk result (KnowsPast self.new (var tokens ∷ past)) }
        ensures same_terms { terms_kept self.new ≡ terms_kept self.old }
        ensures same_names { asked_of_reader self.new ≡ asked_of_reader self.old }
    {
        self.declare()?;
        if self.signals.is_empty() {
            return Ok(());
        }
        self.declare_offered()
    }

    // What the tokens offer is read by definitions.
    fn declare_offered(&mut self) -> Result<(), AllocError>
        ensures knows { (past : List Statement) (tokens : List (List ℕ)) → IsQuiet past →
            is_defined past ≡ false →
            AreScopes (scopes_at past) self.old.past.scopes.prefix.items
            self.old.past.scopes.lens.items →
            map (λ token. token.items) self.old.tokens.items ≡ take KEPT_MAX tokens →
            KnowsSignals self.old.names self.old.events self.old.signals past →
            KnowsOffers self.old.signals.definitions.items past self.old.needed →
            OnOk result (KnowsSignals self.old.names self.old.events self.new.signals
            (var tokens ∷ past) × KnowsOffers self.old.signals.definitions.items
            (var tokens ∷ past) self.new.needed) }
        ensures needed { (past : List Statement) → KnowsNeeded past self.old.needed →
            KnowsNeeded past self.new.needed }
        ensures same_needed { self.new.needed.needed ≡ self.old.needed.needed }
        ensures same_past { (self.new.past ≡ self.old.past)
            × (self.new.longest ≡ self.old.longest) }
        ensures same_terms { terms_kept self.new ≡ terms_kept self.old }
        ensures same_names { asked_of_reader self.new ≡ asked_of_reader self.old }
    {
        let alloc = self.past.alloc;
        let Some(offered) = offer_in(alloc, &self.past.scopes, &self.tokens)? else {
            return Ok(());
        };
        if !self.needed.may_read(&offered) {
            return Ok(());
        }
        self.needed.declare_offered(&offered);
        self.signals.declare(alloc, &offered)
    }

    // Four tokens declare a proposition, an event or neither, and any other number declares none. A
    // path that is longer than each name is that of none, and isn't put together.
    fn declare(&mut self) -> Result<(), AllocError>
        ensures knows { (past : List Statement) (word : List ℕ) (tokens : List (List ℕ)) →
            Holds self.old (record { past = past; inside = section word tokens }) →
            OnOk result (KnowsOfPast self.new.names self.new.events self.new.past (var tokens ∷
            past)
            × KnowsNeeded (var tokens ∷ past) self.new.needed) }
        ensures offers { (all : List SignalDefined) (past : List Statement) →
            KnowsOffers all past self.old.needed → KnowsOffers all past self.new.needed }
        ensures same_needed { self.new.needed.needed ≡ self.old.needed.needed }
        ensures same_signals { (self.new.signals ≡ self.old.signals)
            × (self.new.tokens ≡ self.old.tokens) }
        ensures same_longest { self.new.longest ≡ self.old.longest }
        ensures same_terms { terms_kept self.new ≡ terms_kept self.old }
        ensures same_names { asked_of_reader self.new ≡ asked_of_reader self.old }
    {
        let tokens = self.tokens.as_slice();
        if tokens.len() != 4 {
            return Ok(());
        }
        let identifier = tokens[2].as_slice();
        let reference = tokens[3].as_slice();
        if self.past.scopes.is_path_longer(reference, self.longest) {
            return Ok(());
        }
        if is_signal(&tokens[0], &tokens[1]) {
            let needed = &mut self.needed;
            declare_proposition(&self.names, &mut self.past, needed, reference, identifier)
        } else if is_event(&tokens[0]) {
            let needed = &mut self.needed;
            declare_event(&self.events, &mut self.past, needed, reference, identifier)
        } else {
            Ok(())
        }
    }

    // A variable is declared by the section that ends.
    fn end_declaration(&mut self) -> Said
        ensures tells { (past : List Statement) (word : List ℕ) (tokens : List (List ℕ)) →
            Holds self.old (record { past = past; inside = section word tokens }) →
            TellsPart (asked_of_reader self.old) (declaration_says past tokens) (Holds self.new)
            result }
        ensures kinds { result ≢ Said.Wrong Spent }
        ensures same_terms { terms_kept self.new ≡ terms_kept self.old }
        ensures same_names { asked_of_reader self.new ≡ asked_of_reader self.old }
    {
        if self.tokens.as_slice().len() < 4 {
            return Said::Wrong(TraceKind::BadToken);
        }
        match self.declare_all() {
            Ok(()) => {
                self.close();
                Said::Nothing
            }
            Err(_) => Said::Wrong(TraceKind::Memory),
        }
    }

    // The section of this command ends.
    fn end_section(&mut self, command: Command) -> Said
        ensures tells { (past : List Statement) (word : List ℕ) (tokens : List (List ℕ)) →
            Holds self.old (record { past = past; inside = section word tokens }) →
            command ≡ command_of word →
            TellsPart (asked_of_reader self.old) (section_says past word tokens) (Holds self.new)
            result }
        ensures kinds { result ≢ Said.Wrong Spent }
        ensures same_terms { terms_kept self.new ≡ terms_kept self.old }
        ensures same_names { asked_of_reader self.new ≡ asked_of_reader self.old }
    {
        match command {
            Command::Scope => self.end_scope(),
            Command::Upscope => {
                self.past.leave();
                self.close();
                Said::Nothing
            }
            Command::Var => self.end_declaration(),
            Command::Timescale => {
                self.past.measure(&self.tokens);
                self.close();
                Said::Nothing
            }
            Command::EndDefinitions => {
                self.past.define(&self.names);
                self.signals.sift();
                self.close();
                Said::Nothing
            }
            Command::Other => {
                self.close();
                Said::Nothing
            }
        }
    }

    // Reads a token in the section of this command.
    pub(crate) fn read_inside(&mut self, command: Command, token: &[u8]) -> Said
        ensures tells { (past : List Statement) (word : List ℕ) (tokens : List (List ℕ)) →
            Holds self.old (record { past = past; inside = section word tokens }) →
            command ≡ command_of word →
            TellsPart (asked_of_reader self.old) (token_at (terms_kept self.old) past (section word
            tokens)
            token.now)
            (Holds self.new) result }
        ensures kinds { result ≢ Said.Wrong Spent }
        ensures same_terms { terms_kept self.new ≡ terms_kept self.old }
        ensures same_names { asked_of_reader self.new ≡ asked_of_reader self.old }
    {
        if is_end(token) {
            return self.end_section(command);
        }
        self.keep(token)
    }
}

// Puts a copy of the token behind the others.
fn push_token(tokens: &mut Vec<Vec<u8>>, alloc: Global, token: &[u8]) -> Result<(), AllocError>
    ensures { OnOk result (map (λ token. token.items) tokens.new.items
        ≡ map (λ token. token.items) tokens.old.items ++ token.now ∷ []) }
{
    tokens.push(Vec::from_slice(alloc, token)?)?;
    Ok(())
}
