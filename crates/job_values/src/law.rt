//! Laws of the functions that say what a text of a declaration is.

ghost use Rattle.std.specs.Prelude.{◌≡◌, ◌↔◌, ℕ, List, Ok, Err, Some};
ghost use Rattle.field_table.specs.FieldText.{field_text};
ghost use Rattle.field_table.specs.declared.field_ref.FieldRef.{FieldRef};
ghost use Rattle.query_syntax.specs.declared.fault.ParseFault.TheVariants.{Bad};
ghost use Rattle.query_syntax.specs.declared.fault.QueryFault.{QueryFault};
ghost use Rattle.query_lang.specs.Expression.{Expression};
ghost use Rattle.query_lang.specs.Grammar.{Gives, Refuses};
ghost use Rattle.query_lang.specs.declared.names.Names.{Names};
ghost use Rattle.query_lang.specs.declared.names.Scope.{Scope};
ghost use Rattle.job_values.specs.Fields.{field_of};
ghost use Rattle.job_values.specs.Parsed.{parsed, shown};

/// What a text is parsed to, as a function, is what the grammar gives or refuses: the function is the
/// relation, on both sides.
pub fn one_expression()
    ensures gives { (text : List ℕ) (names : Names) (scope : Scope) (e : Expression) →
        (parsed scope (shown names.vars.items) (shown names.captures.items) text ≡ Ok e) ↔ Gives text names scope e }
    ensures refuses { (text : List ℕ) (names : Names) (scope : Scope) (f : QueryFault) →
        (parsed scope (shown names.vars.items) (shown names.captures.items) text ≡ Err f) ↔ Refuses text names scope (Bad f) }
{}

/// The field that a text names, as a function, is the one whose text it is.
pub fn one_field()
    ensures { (text : List ℕ) (f : FieldRef) → (field_of text ≡ Some f) ↔ (text ≡ field_text f) }
{}
