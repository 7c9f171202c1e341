//! What the line says of a job's fault.

ghost use Rattle.std.specs.Prelude.{◌≡◌, ◌+◌, ◌≤◌, ◌++◌, length};
ghost use Rattle.job_values.specs.declared.fault.JobWhat.TheVariants as faults;
ghost use Rattle.run_faults.specs.JobLine.{member_text, expression_what, job_what, job_text};

use crate::line::Line;
use job_values::{JobFault, JobWhat, Member};
use query_syntax::QueryWhat;

/// Puts the text of a job's fault at the end.
pub fn push_job(line: &mut Line, fault: &JobFault)
    requires { length line.old ≤ 16 }
    ensures text { line.new ≡ line.old ++ job_text fault.now }
    ensures short { length line.new ≤ length line.old + 170 }
{
    line.push(b"job: ");
    line.push(member_text(fault.member).as_bytes());
    line.push(b"[");
    line.push_number(u128::from(fault.index));
    line.push(b"]: ");
    push_what(line, &fault.what);
}

/// Puts at the end what is wrong with a member.
fn push_what(line: &mut Line, what: &JobWhat)
    requires { length line.old ≤ 90 }
    ensures text { line.new ≡ line.old ++ job_what what.now }
    ensures short { length line.new ≤ length line.old + 60 }
{
    match what {
        JobWhat::NotJson => line.push(b"not json"),
        JobWhat::Missing => line.push(b"missing"),
        JobWhat::WrongKind => line.push(b"wrong kind"),
        JobWhat::Stray => line.push(b"stray"),
        JobWhat::BadName => line.push(b"bad name"),
        JobWhat::Twice => line.push(b"twice"),
        JobWhat::Unknown => line.push(b"unknown"),
        JobWhat::Field => line.push(b"field"),
        JobWhat::Expression { at, what } => push_expression(line, *at, *what),
        JobWhat::Limit { value } => {
            line.push(b"limit ");
            line.push_number(*value);
        }
    }
}

/// Puts at the end what is wrong with an expression, and at which byte.
fn push_expression(line: &mut Line, at: u32, what: QueryWhat)
    requires { length line.old ≤ 90 }
    ensures text { line.new ≡ line.old ++ job_what (faults.Expression at what) }
    ensures short { length line.new ≤ length line.old + 60 }
{
    line.push(b"expression ");
    line.push_number(u128::from(at));
    line.push(b" ");
    line.push(expression_what(what).as_bytes());
}

/// What is wrong with an expression.
fn expression_what(what: QueryWhat) -> &'static str
    ensures text { result.now ≡ expression_what what }
    ensures short { length result.now ≤ 6 }
{
    match what {
        QueryWhat::Token => "token",
        QueryWhat::Deep => "deep",
        QueryWhat::Syntax => "syntax",
        QueryWhat::Name => "name",
    }
}

/// A member by its path in the declaration.
fn member_text(member: Member) -> &'static str
    ensures text { result.now ≡ member_text member }
    ensures short { length result.now ≤ 18 }
{
    match member {
        Member::Whole => "whole",
        Member::Version => "version",
        Member::VxlanPort => "vxlan_port",
        Member::Captures => "captures",
        Member::CapturesName => "captures.name",
        Member::CapturesFile => "captures.file",
        Member::CapturesOffset => "captures.offset",
        Member::CapturesSkew => "captures.skew",
        Member::CapturesInterface => "captures.interface",
        Member::Vars => "vars",
        Member::VarsName => "vars.name",
        Member::VarsTake => "vars.take",
        Member::Filter => "filter",
        Member::Key => "key",
        Member::Window => "window",
        Member::Skew => "skew",
        Member::Profile => "profile",
        Member::Query => "query",
        Member::QueryKind => "query.kind",
        Member::QueryHop => "query.hop",
        Member::QueryExits => "query.exits",
        Member::QueryAllow => "query.allow",
        Member::QueryFrom => "query.from",
        Member::QueryTo => "query.to",
        Member::QueryRules => "query.rules",
        Member::QueryRulesVar => "query.rules.var",
        Member::QueryRulesHow => "query.rules.how",
        Member::QueryRulesBy => "query.rules.by",
        Member::QueryRulesRows => "query.rules.rows",
        Member::QueryExpr => "query.expr",
    }
}
