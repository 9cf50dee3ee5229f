//! Laws of definitions, each as a function whose contract it is.
ghost use Rattle.std.specs.Prelude.{◌≡◌, ◌⊎◌, ℕ, List};
ghost use Rattle.tre_num.specs.Defined.{Defined};
ghost use Rattle.tre_num.specs.Definitions.{Define, LetsAreRefused};
ghost use Rattle.tre_define.specs.Texts.{parts_of};
ghost use Rattle.tre_define.specs.declared.let_fault.LetFault.{LetFault};

/// A text has a reading: it is some definitions, or has a first fault.
pub fn some_reading()
    ensures { (text : List ℕ) →
        ((definitions : List Defined) × Define (parts_of text) definitions)
        ⊎ ((fault : LetFault) × LetsAreRefused (parts_of text) fault) }
{}

/// A text has one reading: it is these definitions, or others, and not both.
pub fn one_reading()
    ensures { (text : List ℕ) (one other : List Defined) →
        Define (parts_of text) one → Define (parts_of text) other → one ≡ other }
{}

/// A text has one first fault.
pub fn one_fault()
    ensures { (text : List ℕ) (one other : LetFault) →
        LetsAreRefused (parts_of text) one → LetsAreRefused (parts_of text) other → one ≡ other }
{}

/// A text of definitions is never refused.
pub fn definitions_are_read()
    ensures { (text : List ℕ) (definitions : List Defined) (fault : LetFault) →
        Define (parts_of text) definitions → LetsAreRefused (parts_of text) fault → ⊥ }
{}
