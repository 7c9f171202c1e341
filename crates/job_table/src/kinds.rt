//! What is asked of each group, and the kinds of query and of rule.

use ds_base::Text;
use path_judges::PatternList;
use query_lang::Expr;
use rewrite_judge::RuleList;

/// What is asked of each group. Variables and captures are their numbers in the job.
#[derive(Drop)]
pub enum Query {
    /// Nothing: every group is fine.
    All,
    /// Whether a packet came back to a capture with a lesser value of the variable `hop`.
    Loop { hop: u32 },
    /// Whether a packet was seen at an exit; bit `c` of `set` is set where capture `c` is one.
    Exits { set: u64 },
    /// Whether a packet took a path that is allowed.
    Path { allow: PatternList },
    /// Whether what goes straight from one capture to another keeps the rules.
    Rewrite { from: u32, to: u32, rules: RuleList },
    /// The value of an expression over the group; `text` is as it was given.
    Test { text: Text, expr: Expr },
}

/// The kinds of query.
#[derive(Clone, Copy)]
pub(crate) enum QuestionKind {
    All,
    Loop,
    Drop,
    Path,
    Rewrite,
    Test,
}

/// How a rule compares the values before and after.
#[derive(Clone, Copy)]
pub(crate) enum Way {
    Same,
    Less,
    Table,
}
