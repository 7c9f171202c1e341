//! The members of a declaration.

/// A member of the declaration of a job, by its row in the table of members. `CapturesName` is
/// `name` of an object in the list `captures`, and so on.
#[derive(Clone, Copy, Debug, PartialEq, Eq)]
pub enum Member {
    /// The declaration itself.
    Whole,
    Version,
    VxlanPort,
    Captures,
    CapturesName,
    CapturesFile,
    CapturesOffset,
    CapturesSkew,
    CapturesInterface,
    Vars,
    VarsName,
    VarsTake,
    Filter,
    Key,
    Window,
    Skew,
    Profile,
    Query,
    QueryKind,
    QueryHop,
    QueryExits,
    QueryAllow,
    QueryFrom,
    QueryTo,
    QueryRules,
    QueryRulesVar,
    QueryRulesHow,
    QueryRulesBy,
    QueryRulesRows,
    QueryExpr,
}
