//! The laws of one reading and of one outcome.

ghost use Rattle.std.specs.Prelude.{◌≡◌, ℕ, List};
ghost use Rattle.query_tokens.specs.declared.token.Token.{Token};
ghost use Rattle.query_syntax.specs.declared.fault.QueryWhat.{QueryWhat};
ghost use Rattle.query_syntax.specs.Tree.{Tree};
ghost use Rattle.query_syntax.specs.Grammar.{Derives};
ghost use Rattle.query_syntax.specs.Faults.{Reads, Fails};

/// Tokens are an expression in at most one way: the grammar is unambiguous.
pub fn one_reading()
    ensures { (ts : List Token) (t u : Tree) → Derives ts t → Derives ts u → t ≡ u }
{}

/// A text has one outcome at most: one tree, or one first fault.
pub fn one_outcome()
    ensures tree { (text : List ℕ) (t u : Tree) → Reads text t → Reads text u → t ≡ u }
    ensures fault { (text : List ℕ) (w v : QueryWhat) (a b : ℕ) →
        Fails text w a → Fails text v b → (w ≡ v) × (a ≡ b) }
    ensures either { (text : List ℕ) (t : Tree) (w : QueryWhat) (a : ℕ) → Reads text t → Fails text w a → ⊥ }
{}
