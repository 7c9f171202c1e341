//! What a job's query says of a group.

ghost use Rattle.std.specs.Prelude.{◌≡◌, ◌<◌, length, All};
ghost use Rattle.ds_base.specs.declared.verdict.Verdict.{Verdict};
ghost use Rattle.summary_spec.specs.Job.{declared_of};
ghost use Rattle.summary_spec.specs.Judge.{IsVerdict, verdict_on};

use crate::job::Job;
use ds_base::{Group, Verdict};
use job_table::Query;
use path_judges::{judge_drop, judge_loop, judge_path};
use query_lang::eval_group;
use rewrite_judge::judge_rewrite;

impl Job {
    /// What the job's query says of a group that is not empty, whose members have a value for each variable
    /// of the job and are of captures below 64. It takes no memory.
    pub fn judge(&self, group: &Group) -> Verdict
        requires not_empty { 0 < length group.now.members.items }
        requires captures { All (λ member. member.at.capture < 64) group.now.members.items }
        requires values { All (λ member. length member.vals ≡ length self.now.names.vars.items) group.now.members.items }
        ensures verdict { IsVerdict (declared_of self.now).query group.now.members.items result }
        ensures only { (other : Verdict) → IsVerdict (declared_of self.now).query group.now.members.items other → other ≡ result }
        ensures value { result ≡ verdict_on (declared_of self.now).query group.now.members.items }
    {
        match &self.query {
            Query::All => Verdict::Fine,
            Query::Loop { hop } => judge_loop(group, *hop),
            Query::Exits { set } => judge_drop(group, *set),
            Query::Path { allow } => judge_path(group, allow),
            Query::Rewrite { from, to, rules } => judge_rewrite(group, *from, *to, rules),
            Query::Test { expr, .. } => match eval_group(expr, group) {
                Some(n) => Verdict::Value { n },
                None => Verdict::Undefined,
            },
        }
    }
}
