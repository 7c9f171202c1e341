//! The canonical text of a job.

ghost use Rattle.std.specs.Prelude.{◌≡◌, codes, ◌<◌, ℕ, List, Ok, ◌+◌, ◌∷◌, map, length, drop, slice_get, Some, IfOk, All, string_bytes};
ghost use Rattle.serde_json.specs.Data.{unsigned, boolean, number, string, array, object, no_members, member};
ghost use Rattle.serde_json.specs.Read.{read};
ghost use Rattle.serde_json.specs.View.{view, items_of};
ghost use Rattle.job_values.specs.Parsed.{shown};
ghost use Rattle.job_text.specs.Parts.{both_of, list_of, name_at, named, capture_values, field_value, var_value};
ghost use Rattle.summary_spec.specs.Canonical.{canonical_data, canonical};
ghost use Rattle.job_table.specs.Question.{items_of as lists_of};
ghost use Rattle.summary_spec.specs.Job.{declared_of};
ghost use Rattle.summary_spec.specs.Reads.{reads};

use crate::job::Job;
use ds_base::{OutOfMemory, Text};
use job_table::copied;
use job_text::{captures_value, key_value, question_value, vars_value};
use serde_json::{Value, json};
use std::alloc::{AllocError, Global};

impl Job {
    /// The canonical text of the job: JSON without blanks, the members of each object in byte order,
    /// with all that are optional: from version 2 on also the offset and the skew of each capture, and its
    /// interface exactly where it was given. The words of a pattern are joined by one blank, exits stand in rising capture number, and a wide
    /// number from 2^64 on is a text. Filter and expression stand as they were given. The error is
    /// want of memory.
    pub fn print(&self, alloc: Global) -> Result<Text, OutOfMemory>
        ensures text { IfOk result (λ text. text.items ≡ canonical (declared_of self.now)) }
        ensures reads_back { IfOk result (λ text. (bytes : List ℕ)
            → reads bytes ≡ Ok (declared_of self.now) → reads text.items ≡ Ok (declared_of self.now)) }
    {
        let Ok(text) = job_text(alloc, self) else {
            return Err(OutOfMemory);
        };
        copied(alloc, text.as_str())
    }
}

// The text of the job's value.
fn job_text(alloc: Global, job: &Job) -> Result<String, AllocError>
    ensures text { IfOk result (λ text. string_bytes text ≡ canonical (declared_of job.now)) }
    ensures read { IfOk result (λ text. read (string_bytes text) ≡ Some (canonical_data (declared_of job.now))) }
{
    let value = job_value(alloc, job)?;
    value.to_string(alloc)
}

// The job as a value.
fn job_value(alloc: Global, job: &Job) -> Result<Value, AllocError>
    ensures { IfOk result (λ v. view v ≡ canonical_data (declared_of job.now)) }
{
    let captures = captures_value(
        alloc,
        job.version,
        &job.names.captures,
        &job.files,
        &job.offsets,
        &job.skews,
        &job.interfaces,
    )?;
    let key = key_value(alloc, &job.names.vars, &job.key)?;
    let query = question_value(alloc, &job.names, &job.query)?;
    let vars = vars_value(alloc, &job.names.vars, &job.takes)?;
    whole(alloc, job, captures, key, query, vars)
}

// The members of a job.
fn whole(
    alloc: Global,
    job: &Job,
    captures: Value,
    key: Value,
    query: Value,
    vars: Value,
) -> Result<Value, AllocError>
    ensures { IfOk result (λ v. view v ≡ object (
        member (codes "captures") (view captures) (
        member (codes "filter") (string job.now.filter_text.items) (
        member (codes "key") (view key) (
        member (codes "profile") (boolean job.now.profile) (
        member (codes "query") (view query) (
        member (codes "skew") (number (unsigned job.now.skew)) (
        member (codes "vars") (view vars) (
        member (codes "version") (number (unsigned job.now.version)) (
        member (codes "vxlan_port") (number (unsigned job.now.port)) (
        member (codes "window") (number (unsigned job.now.window)) no_members))))))))))) }
{
    json!(in alloc; {
        "window": job.window,
        "vxlan_port": job.port,
        "version": job.version,
        "vars": vars,
        "skew": job.skew,
        "query": query,
        "profile": job.profile,
        "key": key,
        "filter": job.filter_text.as_str(),
        "captures": captures
    })
}
