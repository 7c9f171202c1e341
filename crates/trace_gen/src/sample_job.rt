//! The job of every sample.

ghost use Rattle.std.specs.Prelude.{◌≡◌, [], ◌∷◌, map, codes, IfOk};
ghost use Rattle.job_table.specs.Question.{items_of};
ghost use Rattle.summary_spec.specs.Job.{declared_of};
ghost use Rattle.trace_gen.specs.Captures.{point_name, points};
ghost use Rattle.trace_gen.specs.SampleJob.{only_field, sample_job};

use crate::sample::point_name;
use crate::sighting::POINTS;
use ds_base::{ItemList, KeyList, NameList, OutOfMemory};
use field_table::{FieldRef, Kind};
use job_table::{FieldList, InterfaceList, OffsetList, Query, SkewList, TakeList, copied, put};
use query_lang::{Expr, Names};
use std::alloc::Global;
use summary_spec::Job;

/// How long after the first copy of a packet the others are seen at most, in nanoseconds.
const WINDOW: u64 = 100_000;

/// The job: the loops of packets by their TTL, and the delays between the capture points.
pub(crate) fn sample_job(alloc: Global) -> Result<Job, OutOfMemory>
    ensures { IfOk result (λ job. declared_of job ≡ sample_job) }
{
    let vars = var_names(alloc)?;
    let captures = point_names(alloc)?;
    let files = point_names(alloc)?;
    let offsets: OffsetList = at_each_point(alloc, 0)?;
    let skews: SkewList = at_each_point(alloc, 0)?;
    let interfaces: InterfaceList = at_each_point(alloc, None)?;
    let takes = takes(alloc)?;
    let key: KeyList = only(alloc, 0)?;
    let filter_text = copied(alloc, "1")?;
    Ok(Job {
        version: 1,
        port: 4789,
        names: Names { vars, captures },
        files,
        offsets,
        skews,
        interfaces,
        takes,
        filter_text,
        filter: Expr::Number(1),
        key,
        window: WINDOW,
        skew: 0,
        profile: true,
        query: Query::Loop { hop: 1 },
    })
}

// The names of the variables.
fn var_names(alloc: Global) -> Result<NameList, OutOfMemory>
    ensures { IfOk result (λ names. items_of names.items ≡ codes "id" ∷ codes "ttl" ∷ []) }
{
    let id = copied(alloc, "id")?;
    let ttl = copied(alloc, "ttl")?;
    both(alloc, id, ttl)
}

// The names of all capture points.
fn point_names(alloc: Global) -> Result<NameList, OutOfMemory>
    ensures { IfOk result (λ names. items_of names.items ≡ map point_name points) }
{
    let mut names = NameList::new(alloc);
    for point in 0..POINTS {
        let name = point_name(alloc, point)?;
        put(&mut names, name)?;
    }
    Ok(names)
}

// The alternatives of the variables: the identification and the TTL of the innermost IPv4 header.
fn takes(alloc: Global) -> Result<TakeList, OutOfMemory>
    ensures { IfOk result (λ takes. items_of takes.items
        ≡ only_field (codes "ipv4[-1].id") ∷ only_field (codes "ipv4[-1].ttl") ∷ []) }
{
    let id: FieldList = only(alloc, id_field())?;
    let ttl: FieldList = only(alloc, ttl_field())?;
    both(alloc, id, ttl)
}

// The identification of the innermost IPv4 header.
fn id_field() -> FieldRef
    ensures { only_field (codes "ipv4[-1].id") ≡ result ∷ [] }
{
    FieldRef {
        kind: Kind::Ipv4,
        inside: true,
        steps: 0,
        field: 4,
    }
}

// Its TTL.
fn ttl_field() -> FieldRef
    ensures { only_field (codes "ipv4[-1].ttl") ≡ result ∷ [] }
{
    FieldRef {
        kind: Kind::Ipv4,
        inside: true,
        steps: 0,
        field: 7,
    }
}

// A list with the same item for each capture point.
fn at_each_point<T: Copy + Drop>(alloc: Global, item: T) -> Result<ItemList<T>, OutOfMemory>
    ensures { IfOk result (λ list. list.items ≡ map (λ _. item) points) }
{
    let mut list = ItemList::new(alloc);
    for point in 0..POINTS {
        put(&mut list, item)?;
    }
    Ok(list)
}

// A list of one item.
fn only<T: Drop>(alloc: Global, item: T) -> Result<ItemList<T>, OutOfMemory>
    ensures { IfOk result (λ list. list.items ≡ item ∷ []) }
{
    let mut list = ItemList::new(alloc);
    put(&mut list, item)?;
    Ok(list)
}

// A list of two items.
fn both<T: Drop>(alloc: Global, first: T, second: T) -> Result<ItemList<T>, OutOfMemory>
    ensures { IfOk result (λ list. list.items ≡ first ∷ second ∷ []) }
{
    let mut list = ItemList::new(alloc);
    put(&mut list, first)?;
    put(&mut list, second)?;
    Ok(list)
}
