//! The happy path of each call, and the failures of the objects in memory.

use crate::{
    Failed, FileList, Folder, Gate, ItemList, KeyList, MemFolder, MemSink, MemSource, NamedFile,
    NoFile, Nums, OpenGate, PipeRx, PipeTx, Sink, Source, SureFolder, SureSink, SureSource, Text,
};
use std::alloc::{AllocError, Global};
use std::test::Fail;

fn numbers(alloc: Global, all: &[u32]) -> Result<KeyList, AllocError> {
    let mut list = KeyList::new(alloc);
    for n in all {
        if list.push(*n).is_err() {
            return Err(AllocError);
        }
    }
    Ok(list)
}

fn text(alloc: Global, of: &str) -> Result<Text, AllocError> {
    let mut text = Text::new(alloc);
    if text.push_str(of).is_err() {
        return Err(AllocError);
    }
    Ok(text)
}

fn files(alloc: Global) -> Result<FileList, AllocError> {
    let mut list = FileList::new(alloc);
    let file = NamedFile {
        name: text(alloc, "a")?,
        bytes: b"capture".to_vec(alloc)?,
    };
    if list.push(file).is_err() {
        return Err(AllocError);
    }
    Ok(list)
}

#[test]
fn a_list_keeps_its_items_in_order(rt: HostRuntime) -> Result<(), Fail> {
    let mut list = ItemList::new(rt.alloc());
    assert!(rt; list.is_empty());
    assert!(rt; list.reserve(2).is_ok());
    assert_eq!(rt; list.push(3u32), Ok(()));
    assert_eq!(rt; list.push(5), Ok(()));
    assert_eq!(rt; list.len(), 2);
    *list.get_mut(0) = 4;
    assert_eq!(rt; *list.get(0), 4);
    assert_eq!(rt; list.pop(), Some(5));
    assert_eq!(rt; list.pop(), Some(4));
    assert_eq!(rt; list.pop(), None);
    list.destroy_empty();
    OpenGate.pass(0);
    Ok(())
}

#[test]
fn a_text_takes_characters_pieces_and_numbers(rt: HostRuntime) -> Result<(), Fail> {
    let mut text = Text::new(rt.alloc());
    assert!(rt; text.is_empty());
    assert_eq!(rt; text.push('é'), Ok(()));
    assert!(rt; text.push_str("=").is_ok());
    assert!(rt; text.push_decimal(0).is_ok());
    assert!(rt; text.push_str(" ").is_ok());
    assert!(rt; text.push_decimal(u128::MAX).is_ok());
    assert_eq!(rt;
        text.as_str(),
        "é=0 340282366920938463463374607431768211455"
    );
    assert_eq!(rt; text.len(), 44);
    assert_eq!(rt; *text.get(2), b'=');
    Ok(())
}

#[test]
fn numbers_are_kept_and_compared_as_a_list(rt: HostRuntime) {
    let mut one = Nums::new();
    one.push(7);
    let mut two = one;
    assert_eq!(rt; one, two);
    two.push(0);
    assert!(rt; one != two && one < two);
    assert_eq!(rt; two.len(), 2);
    assert_eq!(rt; two.get(0), 7);
}

#[test]
fn objects_in_memory_move_pieces_and_fail_where_they_are_told(rt: HostRuntime) -> Result<(), Fail> {
    let bytes = b"abcde".to_vec(rt.alloc())?;
    let mut source = MemSource::new(bytes, 2, numbers(rt.alloc(), &[1])?);
    let mut buf = [0u8; 4];
    assert_eq!(rt; source.read(&mut buf), Ok(2));
    assert_eq!(rt; source.read(&mut buf), Err(Failed));
    assert!(rt; source.has_failed());
    assert_eq!(rt; source.read(&mut buf), Ok(2));
    assert_eq!(rt; source.read(&mut buf), Ok(1));
    assert_eq!(rt; buf[0], b'e');
    assert_eq!(rt; source.read(&mut buf), Ok(0));
    let mut sink = MemSink::new(rt.alloc(), 3, numbers(rt.alloc(), &[1])?);
    assert_eq!(rt; sink.write(b"report"), Ok(3));
    assert_eq!(rt; sink.write(b"ort"), Err(Failed));
    assert_eq!(rt; sink.write(b"ort"), Ok(3));
    assert_eq!(rt; sink.bytes(), b"report".as_slice());
    Ok(())
}

#[test]
fn a_folder_opens_what_it_has_and_counts_what_failed(rt: HostRuntime) -> Result<(), Fail> {
    let alloc = rt.alloc();
    let mut folder = MemFolder::new(alloc, files(alloc)?, 16, vec![in alloc; (0, 0)]?);
    assert!(rt; matches!(folder.open("b"), Err(NoFile::Missing)));
    let Ok(mut source) = folder.open("a") else {
        return Err(Fail::from("not opened"));
    };
    let mut buf = [0u8; 16];
    assert_eq!(rt; source.read(&mut buf), Err(Failed));
    assert_eq!(rt; source.read(&mut buf), Ok(7));
    folder.give_back(source);
    Ok(())
}

#[test]
fn the_sure_objects_never_fail(rt: HostRuntime) -> Result<(), Fail> {
    let alloc = rt.alloc();
    let mut buf = [0u8; 3];
    let mut source = SureSource::new(b"abcd".to_vec(alloc)?);
    assert_eq!(rt; source.read(&mut buf), Ok(3));
    assert_eq!(rt; source.read(&mut buf), Ok(1));
    let mut folder = SureFolder::new(alloc, files(alloc)?);
    assert!(rt; matches!(folder.open("b"), Err(NoFile::Missing)));
    let Ok(opened) = folder.open("a") else {
        return Err(Fail::from("not opened"));
    };
    folder.give_back(opened);
    assert_eq!(rt; SureSink::new().write(b"all of it"), Ok(9));
    Ok(())
}

/// An end that tells, takes so many bytes, and then is full.
#[derive(Drop)]
struct FillingEnd {
    sent: Vec<u8>,
    room: usize,
    silent: u64,
    faults: u64,
}

impl PipeTx for FillingEnd {
    ghost use Rattle.std.specs.Prelude.{true};

    ghost seen = { λ end. record { told = true; bytes = end.sent.items; faults = end.faults; silent = end.silent; sure = 0 } };

    fn write(&mut self, piece: &[u8]) -> Result<usize, Failed> {
        let n = piece.len().min(self.room);
        if self.sent.extend_from_slice(&piece[..n]).is_err() {
            self.faults = self.faults.saturating_add(1);
            return Err(Failed);
        }
        self.room -= n;
        if n > 0 {
            self.silent = 0;
        } else if !piece.is_empty() {
            self.silent = self.silent.saturating_add(1);
        }
        Ok(n)
    }
}

/// An end that tells nothing, and gives one byte a call until it fails.
#[derive(Drop)]
struct FailingEnd {
    left: u32,
    silent: u64,
    faults: u64,
}

impl PipeRx for FailingEnd {
    ghost use Rattle.std.specs.Prelude.{[], false};

    ghost seen = { λ end. record { told = false; bytes = []; faults = end.faults; silent = end.silent; sure = 0 } };

    fn read(&mut self, buf: &mut [u8]) -> Result<usize, Failed> {
        if buf.is_empty() {
            return Ok(0);
        }
        if self.left == 0 {
            self.faults = self.faults.saturating_add(1);
            return Err(Failed);
        }
        self.left -= 1;
        self.silent = 0;
        buf[0] = b'x';
        Ok(1)
    }
}

/// The contract of a pipe end is kept both by an end that tells and by one that tells nothing.
#[test]
fn pipe_ends_count_how_often_they_answered_nothing(rt: HostRuntime) {
    let mut tx = FillingEnd {
        sent: Vec::new(rt.alloc()),
        room: 2,
        silent: 0,
        faults: 0,
    };
    assert_eq!(rt; tx.write(b"abc"), Ok(2));
    assert_eq!(rt; tx.write(b"c"), Ok(0));
    assert_eq!(rt; tx.write(b""), Ok(0));
    assert_eq!(rt; tx.silent, 1);
    let mut rx = FailingEnd {
        left: 1,
        silent: 0,
        faults: 0,
    };
    let mut buf = [0u8; 2];
    assert_eq!(rt; rx.read(&mut buf), Ok(1));
    assert_eq!(rt; rx.read(&mut buf), Err(Failed));
    assert_eq!(rt; rx.faults, 1);
}
