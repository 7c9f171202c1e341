//! The job of the command `count`.

ghost use Rattle.std.specs.Prelude.{◌≡◌, ◌≤◌, [], ◌∷◌, IfOk};
ghost use Rattle.summary_spec.specs.CountJob.{count_job};
ghost use Rattle.summary_spec.specs.Job.{declared_of};
ghost use Rattle.job_table.specs.Limits.{longest};

use crate::job::Job;
use ds_base::{HOUR, ItemList, KeyList, NameList, OutOfMemory};
use field_table::FieldRef;
use job_table::{FieldList, InterfaceList, OffsetList, Query, SkewList, TakeList, copied, put};
use query_lang::{Expr, Names};
use std::alloc::Global;

impl Job {
    #[tactic(auto, using(crate::proofs::CountText::one_is))]
    /// The job with one capture `c` of this file and one variable `v` of this field, which is the
    /// key. The window is in nanoseconds, and at most an hour; the skew is an hour. Every record
    /// passes, nothing is asked, and no delays are reported.
    pub fn count(
        alloc: Global,
        field: FieldRef,
        window: u64,
        file: &str,
    ) -> Result<Job, OutOfMemory>
        requires { window ≤ longest }
        ensures { IfOk result (λ job. declared_of job ≡ count_job field window file.now) }
    {
        let vars: NameList = only(alloc, copied(alloc, "v")?)?;
        let captures: NameList = only(alloc, copied(alloc, "c")?)?;
        let files: NameList = only(alloc, copied(alloc, file)?)?;
        let offsets: OffsetList = only(alloc, 0)?;
        let skews: SkewList = only(alloc, HOUR)?;
        let interfaces: InterfaceList = only(alloc, None)?;
        let take: FieldList = only(alloc, field)?;
        let takes: TakeList = only(alloc, take)?;
        let key: KeyList = only(alloc, 0)?;
        let filter_text = copied(alloc, "1")?;
        Ok(Job {
            version: 1,
            port: 4789,
            names: Names { vars, captures },
            files,
            offsets,
            skews,
            interfaces,
            takes,
            filter_text,
            filter: Expr::Number(1),
            key,
            window,
            skew: HOUR,
            profile: false,
            query: Query::All,
        })
    }
}

// A list of one item.
fn only<T: Drop>(alloc: Global, item: T) -> Result<ItemList<T>, OutOfMemory>
    ensures { IfOk result (λ list. list.items ≡ item ∷ []) }
{
    let mut list = ItemList::new(alloc);
    put(&mut list, item)?;
    Ok(list)
}
