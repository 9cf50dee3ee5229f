ghost use Rattle.std.specs.Prelude.{◌≡◌, ◌==◌, ◌<◌, ℕ, List, [], ◌∷◌, drop, length, IfOk, OnOk, true};
ghost use Rattle.tre_vcd.specs.VcdReading.{path};
ghost use Rattle.tre_vcd.specs.Kept.{AreScopes};

use crate::letters::joined;
use std::alloc::{AllocError, Global};

// The open scopes: their names, the outermost first, each with a full stop behind it, and how long
// this text was before each of them.
#[derive(Drop)]
pub struct Scopes {
    pub prefix: Vec<u8>,
    pub lens: Vec<usize>,
}

impl Scopes {
    // No scope is open.
    pub fn new(alloc: Global) -> Scopes
        ensures { AreScopes [] result.prefix.items result.lens.items }
    {
        Scopes {
            prefix: Vec::new(alloc),
            lens: Vec::new(alloc),
        }
    }

    // Whether no scope is open.
    pub fn is_empty(&self) -> bool
        ensures { (scopes : List (List ℕ)) →
            AreScopes scopes self.now.prefix.items self.now.lens.items →
            result ≡ (length scopes == 0) }
    {
        self.lens.as_slice().is_empty()
    }

    // A scope opens inside the others.
    pub fn enter(&mut self, name: &[u8]) -> Result<(), AllocError>
        ensures { (scopes : List (List ℕ)) →
            AreScopes scopes self.old.prefix.items self.old.lens.items →
            OnOk result (AreScopes (name.now ∷ scopes) self.new.prefix.items
            self.new.lens.items) }
    {
        let Ok(()) = self.lens.push(self.prefix.len()) else {
            return Err(AllocError);
        };
        let Ok(()) = self.prefix.extend_from_slice(name) else {
            return Err(AllocError);
        };
        self.prefix.push(b'.')?;
        Ok(())
    }

    // The innermost scope closes.
    pub fn leave(&mut self)
        ensures { (scopes : List (List ℕ)) →
            AreScopes scopes self.old.prefix.items self.old.lens.items →
            AreScopes (drop 1 scopes) self.new.prefix.items self.new.lens.items }
    {
        if let Some(len) = self.lens.pop() {
            self.prefix.truncate(len);
        }
    }

    // Whether the name of what has this reference in these scopes is longer than this.
    pub fn is_path_longer(&self, reference: &[u8], most: usize) -> bool
        ensures { (scopes : List (List ℕ)) →
            AreScopes scopes self.now.prefix.items self.now.lens.items →
            result ≡ true → most < length (path scopes reference.now) }
    {
        self.prefix.len().saturating_add(reference.len()) > most
    }

    // The name of what has this reference in these scopes.
    pub fn path(&self, alloc: Global, reference: &[u8]) -> Result<Vec<u8>, AllocError>
        ensures { (scopes : List (List ℕ)) →
            AreScopes scopes self.now.prefix.items self.now.lens.items →
            IfOk result (λ name. name.items ≡ path scopes reference.now) }
    {
        joined(alloc, &self.prefix, reference)
    }
}
