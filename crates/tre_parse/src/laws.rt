//! Laws of the grammar, each as a function whose contract it is.
ghost use Rattle.std.specs.Prelude.{◌≡◌, ℕ, Option, take, map, true, List, ◌∷◌, ◌++◌, length, codes, ◌↔◌};
ghost use Rattle.tre_state.specs.StateTree.{StateTree, conjunction, disjunction};
ghost use Rattle.tre_trace.specs.Reading.{Vocabulary};
ghost use Rattle.tre_syntax.specs.PatternTree.{PatternTree, sequence, alternation, intersection};
ghost use Rattle.tre_parse.specs.Words.{AreWords};
ghost use Rattle.tre_parse.specs.TokenWords.{Piece, words_by, AreTheirs, WordAt, word_at};
ghost use Rattle.tre_parse.specs.Grammar.{StateRule, SpellsState, Rule, Spells};
ghost use Rattle.tre_parse.specs.Begins.{BeginsState, Begins, IsCompletable};
ghost use Rattle.tre_parse.specs.Strength.{Groups, StateGroups};
ghost use Rattle.std.specs.Char.{is_ascii_digit};
ghost use Rattle.tre_state.specs.Name.{starts_name, continues_name};
ghost use Rattle.tre_parse.specs.Ends.{bytes_in, EndsRun, EndsNumber};
ghost use Rattle.tre_parse.specs.Lexeme.{sign_lexeme, lexeme_of};
ghost use Rattle.tre_parse.specs.Signs.{IsSign, TakesSign};
ghost use Rattle.tre_parse.specs.declared.lexeme.Lexeme.TheVariants.{Sign};
ghost use Rattle.tre_parse.specs.Scanned.{raw_tokens_of, bad_byte};
ghost use Rattle.tre_parse.specs.declared.token.Token.{Token};
ghost use Rattle.tre_parse.specs.Outcome.{IsSpelling, Outcome, spelt, IsOutcome};

/// A text spells at most one pattern at a scale.
pub fn one_spelling()
    ensures tree { (scale : ℕ) (text : List ℕ) (tree other : PatternTree)
        (names others : Vocabulary) → IsSpelling scale text tree names →
        IsSpelling scale text other others → tree ≡ other }
    ensures names { (scale : ℕ) (text : List ℕ) (tree other : PatternTree)
        (names others : Vocabulary) → IsSpelling scale text tree names →
        IsSpelling scale text other others → names ≡ others }
{}

/// Where a sign of the table stands, a sign of the table is taken that is at least as long; and no
/// other token that isn't a word or a number is taken anywhere.
pub fn longest_sign()
    ensures longest { (spelling rest : List ℕ) (token : Token) → IsSign spelling token →
        TakesSign (spelling ++ rest) (length spelling) }
    ensures only { (bytes : List ℕ) (token : Token) (len : ℕ) →
        sign_lexeme bytes ≡ Sign token len → IsSign (take len bytes) token }
{}

/// The tokens of a text are those that are scanned, each the longest that is written at its place,
/// and no others.
pub fn longest_token()
    ensures one { (text : List ℕ) (words : List WordAt) (bad : Option ℕ) →
        AreWords 0 text words bad → (words ≡ map word_at (raw_tokens_of text))
        × (bad ≡ bad_byte text) }
    ensures some { (text : List ℕ) →
        AreWords 0 text (map word_at (raw_tokens_of text)) (bad_byte text) }
{}

/// A word has as many bytes as can stand in a name, and a number as many digits as there are, and
/// with a point behind them as many more, where there are any.
pub fn longest_word()
    ensures words { (byte : ℕ) (rest : List ℕ) → starts_name byte ≡ true →
        EndsRun continues_name (byte ∷ rest) (bytes_in (lexeme_of (byte ∷ rest))) }
    ensures numbers { (byte : ℕ) (rest : List ℕ) → is_ascii_digit byte ≡ true →
        EndsNumber (byte ∷ rest) (bytes_in (lexeme_of (byte ∷ rest))) }
{}

/// Words that are tokens begin a rule exactly where some further words complete them to what it
/// spells.
pub fn beginnings()
    ensures expression { (scale : ℕ) (known : Vocabulary) (rule : Rule)
        (pieces : List (Piece scale known)) → AreTheirs scale known pieces →
        Begins scale known rule (words_by scale known pieces)
        ↔ IsCompletable (Spells scale known rule) (words_by scale known pieces) }
    ensures state { (scale : ℕ) (known : Vocabulary) (rule : StateRule)
        (pieces : List (Piece scale known)) → AreTheirs scale known pieces →
        BeginsState scale known rule (words_by scale known pieces)
        ↔ IsCompletable (SpellsState scale known rule) (words_by scale known pieces) }
{}

/// Every text has an outcome at each scale.
pub fn some_outcome()
    ensures { (scale : ℕ) (text : List ℕ) → (outcome : Outcome) × IsOutcome scale text outcome }
{}

/// A text has at most one outcome at a scale.
pub fn one_outcome()
    ensures { (scale : ℕ) (text : List ℕ) (outcome other : Outcome) →
        IsOutcome scale text outcome → IsOutcome scale text other → outcome ≡ other }
{}

/// An outcome that is a pattern is the one that the text spells.
pub fn outcome_is_spelt()
    ensures { (scale : ℕ) (text : List ℕ) (tree : PatternTree) (names : Vocabulary) →
        IsOutcome scale text (spelt tree names) → IsSpelling scale text tree names }
{}

/// `;` binds more than `&`, and `&` more than `|`. Each of them groups to the left.
pub fn strength()
    ensures bars { Groups (codes "|") (codes "|")
        (λ e f g. alternation (alternation e f) g) }
    ensures ampersands { Groups (codes "&") (codes "&")
        (λ e f g. intersection (intersection e f) g) }
    ensures semicolons { Groups (codes ";") (codes ";")
        (λ e f g. sequence (sequence e f) g) }
    ensures bar_ampersand { Groups (codes "|") (codes "&")
        (λ e f g. alternation e (intersection f g)) }
    ensures ampersand_bar { Groups (codes "&") (codes "|")
        (λ e f g. alternation (intersection e f) g) }
    ensures bar_semicolon { Groups (codes "|") (codes ";")
        (λ e f g. alternation e (sequence f g)) }
    ensures semicolon_bar { Groups (codes ";") (codes "|")
        (λ e f g. alternation (sequence e f) g) }
    ensures ampersand_semicolon { Groups (codes "&") (codes ";")
        (λ e f g. intersection e (sequence f g)) }
    ensures semicolon_ampersand { Groups (codes ";") (codes "&")
        (λ e f g. intersection (sequence e f) g) }
{}

/// Inside a state `&&` binds more than `||`. Each of them groups to the left.
pub fn state_strength()
    ensures bars { StateGroups (codes "||") (codes "||")
        (λ s t u. disjunction (disjunction s t) u) }
    ensures ampersands { StateGroups (codes "&&") (codes "&&")
        (λ s t u. conjunction (conjunction s t) u) }
    ensures bar_ampersand { StateGroups (codes "||") (codes "&&")
        (λ s t u. disjunction s (conjunction t u)) }
    ensures ampersand_bar { StateGroups (codes "&&") (codes "||")
        (λ s t u. disjunction (conjunction s t) u) }
{}
