//! A run of the program over files in memory, and what it leaves.

use crate::tool::run_tool;
use ds_base::{FileList, KeyList, ListChooser, MemFolder, MemSink, NamedFile, OpenGate, Text};
use run_faults::RunFault;
use std::alloc::{AllocError, Global};
use std::process::Abort;
use std::thread::Threads;

/// What a run left: its status, its fault, and what stands on the output and the standard error.
#[derive(Drop)]
pub(crate) struct Left {
    pub(crate) status: u8,
    pub(crate) fault: Option<RunFault>,
    pub(crate) out: Vec<u8>,
    pub(crate) err: Vec<u8>,
}

/// How the outside behaves: bytes a read and a write, the numbers of a read of a file (by its position in
/// the folder), of a write and of a write to the standard error that fail.
#[derive(Clone, Copy)]
pub(crate) struct Outside {
    pub(crate) read: u32,
    pub(crate) write: u32,
    pub(crate) failing_file: u32,
    pub(crate) failing_read: Option<u32>,
    pub(crate) failing_write: Option<u32>,
    pub(crate) failing_complaint: Option<u32>,
}

pub(crate) const CALM: Outside = Outside {
    read: 4096,
    write: 4096,
    failing_file: 0,
    failing_read: None,
    failing_write: None,
    failing_complaint: None,
};

fn listed(alloc: Global, n: Option<u32>) -> Result<KeyList, AllocError> {
    let mut list = KeyList::new(alloc);
    if let Some(n) = n {
        if list.push(n).is_err() {
            return Err(AllocError);
        }
    }
    Ok(list)
}

fn words(alloc: Global, line: &str) -> Result<Vec<String>, AllocError> {
    let mut words = Vec::new(alloc);
    for word in line.split_whitespace() {
        words.push(String::from_str(alloc, word)?)?;
    }
    Ok(words)
}

/// The commands that owe the report of the job `j`: by the plain program, and by pipelines of several shapes.
pub(crate) const REPORTS: [&str; 4] = [
    "central j",
    "run j --parsers 1 --groupers=1 --processors 1",
    "run j",
    "run j --parsers 16 --groupers 16 --processors 16 --credits 1",
];

/// A file in memory: its name and its bytes.
pub(crate) type Named<'a> = (&'a str, &'a [u8]);

fn folder(alloc: Global, named: &[Named<'_>], outside: Outside) -> Result<MemFolder, AllocError> {
    let mut files = FileList::new(alloc);
    for (name, bytes) in named {
        let mut text = Text::new(alloc);
        if text.push_str(name).is_err() {
            return Err(AllocError);
        }
        let file = NamedFile {
            name: text,
            bytes: bytes.to_vec(alloc)?,
        };
        if files.push(file).is_err() {
            return Err(AllocError);
        }
    }
    let mut failing = Vec::new(alloc);
    if let Some(n) = outside.failing_read {
        failing.push((outside.failing_file, n))?;
    }
    Ok(MemFolder::new(alloc, files, outside.read.max(1), failing))
}

/// A run over a folder that has one file, named `a`.
pub(crate) fn run<R: Threads + Sync>(
    rt: &R,
    alloc: Global,
    line: &str,
    capture: &[u8],
    outside: Outside,
) -> Result<Left, AllocError> {
    run_over(rt, alloc, line, &[("a", capture)], outside)
}

/// A run over a folder that has these files.
pub(crate) fn run_over<R: Threads + Sync>(
    rt: &R,
    alloc: Global,
    line: &str,
    files: &[Named<'_>],
    outside: Outside,
) -> Result<Left, AllocError> {
    let words = words(alloc, line)?;
    let mut folder = folder(alloc, files, outside)?;
    let mut out = MemSink::new(
        alloc,
        outside.write.max(1),
        listed(alloc, outside.failing_write)?,
    );
    let mut err = MemSink::new(alloc, 7, listed(alloc, outside.failing_complaint)?);
    let mut chooser = ListChooser::new(Vec::new(alloc));
    let ended = run_tool(
        rt,
        alloc,
        words.as_slice(),
        &mut folder,
        &mut out,
        &mut err,
        &mut chooser,
        &OpenGate,
    );
    Ok(Left {
        status: ended.status,
        fault: ended.fault,
        out: out.bytes().to_vec(alloc)?,
        err: err.bytes().to_vec(alloc)?,
    })
}

/// It ended Ok, wrote this text, and said nothing on the standard error.
pub(crate) fn ends_ok<R: Threads + Sync + Abort>(rt: &R, left: &Left, text: &[u8]) {
    assert_eq!(rt; left.fault, None);
    assert!(rt; left.status == 0 && left.err.is_empty());
    assert!(rt; left.out.as_slice() == text);
}

/// It ended with this status and this line on the standard error, and wrote this text.
pub(crate) fn stops<R: Threads + Sync + Abort>(
    rt: &R,
    left: &Left,
    status: u8,
    line: &str,
    text: &[u8],
) {
    assert_eq!(rt; left.status, status);
    assert!(rt; left.err.as_slice() == line.as_bytes());
    assert!(rt; left.out.as_slice() == text);
}
