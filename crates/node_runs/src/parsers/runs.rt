//! Runs of a parser to its end, or to its fault.
ghost use Rattle.std.specs.Prelude.{◌≡◌, All, IfOk, length};
ghost use Rattle.ds_base.specs.Outside.{IsFresh};
ghost use Rattle.net_law.specs.Starts.{IsNewTx, AreNewOuts, new_outs};

use super::captures::{HEADER, file, files, for_grouper, for_merge, job};
use crate::links::{Neighbours, Outs};
use crate::turns::{Node, Told, turn_to_end};
use credit_link::{NodeFault, RingRx, RingTx, Turn};
use ds_base::{Bad, KeyList, MemSource, PcapFault, Source, SourceList};
use node_frames::Frame;
use parser_node::ParserNode;
use shuffle_poll::Shuffle;
use std::alloc::Global;
use std::process::Abort;
use std::test::Fail;
use summary_spec::Job;

impl<'a> Node for ParserNode<'a, MemSource, RingTx, RingRx> {
    fn step(&mut self, cut: u32) -> Told {
        self.turn(cut)
    }
}

/// How the sources behave: the bytes of a read, and the capture and number of a read that fails.
#[derive(Clone, Copy)]
struct Outside {
    piece: u32,
    failing: Option<(u32, u32)>,
}

fn source(alloc: Global, capture: u32, file: &[u8], outside: Outside) -> Result<MemSource, Fail>
    ensures { IfOk result (λ source. IsFresh (⟦<MemSource as Source>⟧.seen source)) }
{
    let mut failing = KeyList::new(alloc);
    if let Some((of, number)) = outside.failing {
        if of == capture && failing.push(number).is_err() {
            return Err(Fail::from("no memory"));
        }
    }
    let bytes = file.to_vec(alloc)?;
    Ok(MemSource::new(bytes, outside.piece.max(1), failing))
}

// The links to two groupers and to the merge.
fn shuffle(alloc: Global, outs: Outs) -> Result<Shuffle<RingTx, RingRx>, Fail>
    requires { All (IsNewTx 2) outs.items }
    ensures links { IfOk result (λ out. length out.links ≡ 3) }
    ensures fresh { IfOk result (λ out. out ≡ new_outs out.links) }
    ensures new { IfOk result (λ out. AreNewOuts 2 out.links) }
{
    if outs.len() != 3 {
        return Err(Fail::from("no three links"));
    }
    match Shuffle::new(alloc, outs) {
        Ok(shuffle) => Ok(shuffle),
        Err(_) => Err(Fail::from("no memory")),
    }
}

/// The parser of both captures.
fn parser<'a>(
    alloc: Global,
    job: &'a Job,
    files: [&[u8]; 2],
    outside: Outside,
    outs: Outs,
) -> Result<ParserNode<'a, MemSource, RingTx, RingRx>, Fail>
    requires { All (IsNewTx 2) outs.items }
{
    if job.names.captures.len() != 2 {
        return Err(Fail::from("no two captures"));
    }
    let out = shuffle(alloc, outs)?;
    let first = source(alloc, 0, files[0], outside)?;
    let second = source(alloc, 1, files[1], outside)?;
    let mut sources = SourceList::new(alloc);
    let Ok(()) = sources.push(first) else {
        return Err(Fail::from("no memory"));
    };
    let Ok(()) = sources.push(second) else {
        return Err(Fail::from("no memory"));
    };
    match ParserNode::new(alloc, job, 0, 1, 2, sources, out) {
        Ok(node) => Ok(node),
        Err(_) => Err(Fail::from("no memory")),
    }
}

// A run to the end: what is told there and behind it, and how many frames did not come then. None: others came.
fn run(
    alloc: Global,
    files: [&[u8]; 2],
    wanted: &[Vec<Frame>],
    outside: Outside,
    seed: u64,
) -> Result<((Told, Told), Option<usize>), Fail> {
    let job = job(alloc)?;
    let mut neighbours = Neighbours::new(alloc);
    let outs = neighbours.links_out(alloc, 3)?;
    let mut node = parser(alloc, &job, files, outside, outs)?;
    let told = turn_to_end(&mut node, &mut neighbours, seed);
    let (_sources, _links) = node.close();
    Ok((told?, neighbours.missing(wanted)))
}

fn all_wanted(alloc: Global) -> Result<Vec<Vec<Frame>>, Fail> {
    let mut wanted = Vec::new(alloc);
    wanted.push(for_grouper(alloc, 0)?)?;
    wanted.push(for_grouper(alloc, 1)?)?;
    wanted.push(for_merge(alloc)?)?;
    Ok(wanted)
}

#[test]
fn all_frames_come_whatever_the_pieces(rt: HostRuntime) -> Result<(), Fail> {
    let alloc = rt.alloc();
    let wanted = all_wanted(alloc)?;
    let [a, b] = files(alloc)?;
    for (seed, piece) in [1, 7, 100, 4096, 4096].iter().enumerate() {
        let outside = Outside {
            piece: *piece,
            failing: None,
        };
        let ran = run(
            alloc,
            [a.as_slice(), b.as_slice()],
            &wanted,
            outside,
            seed as u64,
        )?;
        let done = (Ok(Turn::Done), Ok(Turn::Done));
        assert_eq!(rt; ran, (done, Some(0)), "{piece}");
    }
    Ok(())
}

#[test]
fn faults_are_answered_again(rt: HostRuntime) -> Result<(), Fail> {
    let alloc = rt.alloc();
    let wanted = all_wanted(alloc)?;
    let [a, b] = files(alloc)?;
    // The first file has 2,344 bytes and the second 198, and a read behind the last one finds the end.
    let reads = [
        (0, 0),
        (0, 1),
        (0, 2),
        (0, 3),
        (0, 4),
        (0, 5),
        (1, 0),
        (1, 1),
    ];
    for (capture, read) in reads {
        let outside = Outside {
            piece: 512,
            failing: Some((capture, read)),
        };
        let fault = NodeFault::Read { capture };
        let ran = run(
            alloc,
            [a.as_slice(), b.as_slice()],
            &wanted,
            outside,
            u64::from(read),
        )?;
        assert_eq!(rt; ran.0, (Err(fault), Err(fault)), "{capture} {read}");
        assert!(rt; ran.1.is_some(), "{capture} {read}");
    }
    let calm = Outside {
        piece: 512,
        failing: None,
    };
    // A record that is too long behind three, and a file that ends in its header.
    let mut long = file(alloc, 100, 3, 1)?;
    long.extend_from_slice(&[1, 0, 0, 0, 9, 0, 0, 0, 1, 0, 4, 0, 1, 0, 4, 0])?;
    let what = PcapFault::TooLong {
        number: 3,
        len: 262_145,
    };
    let fault = NodeFault::Malformed {
        capture: 1,
        bad: Bad { at: 206, what },
    };
    let ran = run(alloc, [a.as_slice(), long.as_slice()], &wanted, calm, 1)?;
    assert_eq!(rt; ran.0, (Err(fault), Err(fault)));
    assert!(rt; ran.1.is_some());
    let short = HEADER[..23].to_vec(alloc)?;
    let what = PcapFault::ShortHeader { len: 23 };
    let fault = NodeFault::Malformed {
        capture: 0,
        bad: Bad { at: 23, what },
    };
    let ran = run(alloc, [short.as_slice(), b.as_slice()], &wanted, calm, 2)?;
    assert_eq!(rt; ran.0, (Err(fault), Err(fault)));
    assert!(rt; ran.1.is_some());
    Ok(())
}
