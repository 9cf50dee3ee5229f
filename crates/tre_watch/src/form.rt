ghost use Rattle.std.specs.Prelude.{◌≡◌};
ghost use Rattle.tre_watch.specs.Forms.{has_arrow, has_verdict};

/// What a check asks of its pattern, or of both.
#[derive(Clone, Copy, PartialEq, Eq)]
pub enum Form {
    /// `NAME = E`: nothing; the matches are shown.
    Plain,
    /// `never NAME = E`: there is no match.
    Never,
    /// `some NAME = E`: there is a match.
    Found,
    /// `each NAME = E => F`: each match of the first is one of the second.
    Same,
    /// `each NAME = E |-> F`: where a match of the first ends, one of the second begins.
    Follows,
}

impl Form {
    /// Whether a check of this form holds or doesn't.
    pub fn has_verdict(self) -> bool
        ensures { result ≡ has_verdict self }
    {
        self != Form::Plain
    }

    /// Whether it has a second pattern.
    pub fn has_arrow(self) -> bool
        ensures { result ≡ has_arrow self }
    {
        self == Form::Same || self == Form::Follows
    }
}
