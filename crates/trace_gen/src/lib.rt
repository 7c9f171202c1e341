//! Makes the sample of a number: what eight capture points see of 20,000 packets that go from one to the next, as
//! capture files, and the job that diagnoses them. One number gives the same bytes on every machine and in every run.
//! The lowest definitions are in specs/Draws and specs/Sightings; `make` promises that its files are those of
//! specs/Captures, byte by byte.
#![tactic(auto)]

mod capture_file;
mod draws;
mod headers;
mod law;
mod numbers;
mod packet;
mod sample;
mod sample_job;
mod sighting;
mod walk;

pub use law::{all_is_filed, files_read_back};
pub use sample::{Sample, make};

#[cfg(test)]
mod tests;
