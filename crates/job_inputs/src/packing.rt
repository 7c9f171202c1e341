//! How the summaries of a job are packed while they wait for the report.

use ds_base::OutOfMemory;
use field_table::{Form, form};
use job_table::FieldList;
use packed_summaries::Packing;
use std::alloc::Global;
use summary_spec::Job;

/// The packing of a job's summaries: its variables are wide where a field of them has more than 64 bits,
/// and the key is that of the job. The only refusal is want of memory.
pub(crate) fn packing_of(alloc: Global, job: &Job) -> Result<Packing, OutOfMemory> {
    let mut packing = Packing::new(alloc);
    for variable in 0..job.takes.len() {
        if packing.variables() < 16 {
            packing.add_variable(is_wide(job.takes.get(variable)))?;
        }
    }
    for k in 0..job.key.len() {
        let variable = *job.key.get(k);
        if packing.key_len() < 16 && variable < packing.variables() {
            packing.add_to_key(variable)?;
        }
    }
    Ok(packing)
}

/// Whether one of the fields has more than 64 bits. Addresses of IPv6 alone have.
fn is_wide(take: &FieldList) -> bool {
    for i in 0..take.len() {
        if form(take.get(i)) == Form::Addr6 {
            return true;
        }
    }
    false
}
