//! The law of one answer.

ghost use Rattle.std.specs.Prelude.{◌≡◌, ℕ, List};
ghost use Rattle.query_syntax.specs.declared.fault.ParseFault.TheVariants.{Bad};
ghost use Rattle.query_syntax.specs.declared.fault.QueryFault.{QueryFault};
ghost use Rattle.query_lang.specs.declared.names.Names.{Names};
ghost use Rattle.query_lang.specs.declared.names.Scope.{Scope};
ghost use Rattle.query_lang.specs.Expression.{Expression};
ghost use Rattle.query_lang.specs.Grammar.{Gives, Refuses};

use query_syntax::one_outcome;

/// The grammar gives a text one expression, or refuses it with one fault, and never both.
pub fn one_answer()
    ensures expression { (text : List ℕ) (names : Names) (scope : Scope) (e f : Expression) →
        Gives text names scope e → Gives text names scope f → e ≡ f }
    ensures fault { (text : List ℕ) (names : Names) (scope : Scope) (e f : QueryFault) →
        Refuses text names scope (Bad e) → Refuses text names scope (Bad f) → e ≡ f }
    ensures either { (text : List ℕ) (names : Names) (scope : Scope) (e : Expression) (f : QueryFault) →
        Gives text names scope e → Refuses text names scope (Bad f) → ⊥ }
{
    one_outcome();
}
