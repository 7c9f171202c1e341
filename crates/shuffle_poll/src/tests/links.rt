//! Links over rings: frames under three credits, ends that tell the truth and ends that do not.
ghost use Rattle.std.specs.Prelude.{◌≡◌, false};
ghost use Rattle.credit_link.specs.Frames.{is_finish};

use super::take;
use byte_rings::byte_ring;
use credit_link::{LinkBad, LinkRx, LinkTx, RingRx, RingTx, ring_link};
use ds_base::{OutOfMemory, PipeRx, PipeTx};
use node_frames::{Digest, Frame, Seal};
use std::alloc::Global;
use std::process::Abort;
use std::test::Fail;

// The SHA-256 of no bytes (FIPS 180-4).
const EMPTY: [u8; 32] = [
    0xe3, 0xb0, 0xc4, 0x42, 0x98, 0xfc, 0x1c, 0x14, 0x9a, 0xfb, 0xf4, 0xc8, 0x99, 0x6f, 0xb9, 0x24,
    0x27, 0xae, 0x41, 0xe4, 0x64, 0x9b, 0x93, 0x4c, 0xa4, 0x95, 0x99, 0x1b, 0x78, 0x52, 0xb8, 0x55,
];

// The end as a link's first frame, telling of so many frames before it, with its last byte.
fn end_of(frames: u8, last: u8) -> [u8; 45] {
    let mut bytes = [0; 45];
    bytes[3] = 0x29;
    bytes[4] = 0x0b;
    bytes[12] = frames;
    for i in 0..31 {
        bytes[13 + i] = EMPTY[i];
    }
    bytes[44] = last;
    bytes
}

// How many bytes a sender puts for an end that is its first frame, and the bytes.
fn sent(alloc: Global) -> Result<(usize, [u8; 45]), OutOfMemory> {
    let (data_tx, mut data) = byte_ring(alloc, 4096)?;
    let (_credits, credit_rx) = byte_ring(alloc, 3)?;
    let Ok(mut tx) = LinkTx::new(alloc, data_tx, credit_rx, 3) else {
        return Err(OutOfMemory);
    };
    let mut bytes = [0; 45];
    if !tx.ready() {
        return Ok((0, bytes));
    }
    tx.offer(&Frame::Finish);
    for _ in 0..20 {
        let _ = tx.pump(3);
    }
    let count = data.read(&mut bytes).unwrap_or(0);
    Ok((count, bytes))
}

// What a receiver answers to these bytes, which a sender could have sent or could not.
fn pulled(alloc: Global, bytes: &[u8]) -> Result<Result<Option<Frame>, LinkBad>, OutOfMemory> {
    let (mut data, data_rx) = byte_ring(alloc, 4096)?;
    let (credit_tx, _credits) = byte_ring(alloc, 3)?;
    let Ok(mut rx) = LinkRx::new(alloc, data_rx, credit_tx, 3) else {
        return Err(OutOfMemory);
    };
    let _ = data.write(bytes);
    for _ in 0..20 {
        let _ = rx.pump(3);
    }
    Ok(rx.pull())
}

// The fault of an end that tells of so many frames and this digest, where none went before it.
fn seal_bad(frames: u64, bytes: [u8; 32]) -> LinkBad {
    LinkBad::Seal {
        at: 0,
        told: Seal {
            frames,
            digest: Digest { bytes },
        },
        found: Seal {
            frames: 0,
            digest: Digest { bytes: EMPTY },
        },
    }
}

#[test]
fn an_end_that_tells_of_other_frames_is_refused(rt: HostRuntime) -> Result<(), Fail> {
    let alloc = rt.alloc();
    assert_eq!(rt; sent(alloc)?, (45, end_of(0, 0x55)));
    assert_eq!(rt; pulled(alloc, &end_of(0, 0x55))?, Ok(Some(Frame::Finish)));
    let mut other = EMPTY;
    other[31] = 0x54;
    assert_eq!(rt; pulled(alloc, &end_of(0, 0x54))?, Err(seal_bad(0, other)));
    assert_eq!(rt; pulled(alloc, &end_of(1, 0x55))?, Err(seal_bad(1, EMPTY)));
    let bad = LinkBad::Frame { at: 0, len: 1 };
    assert_eq!(rt; pulled(alloc, &[0, 0, 0, 1, 0x0a])?, Err(bad));
    let bad = LinkBad::Frame { at: 0, len: 0 };
    assert_eq!(rt; pulled(alloc, &[0, 0, 0, 0])?, Err(bad));
    assert_eq!(rt; pulled(alloc, &[0, 0, 4])?, Ok(None));
    Ok(())
}

// The Mark of this number.
fn mark(n: u64) -> Frame
    ensures { is_finish result ≡ false }
{
    Frame::Mark {
        capture: 0,
        mark: n,
    }
}

// Pumps until nothing moves.
fn drain(tx: &mut LinkTx<RingTx, RingRx>, cut: u32)
    ensures { tx.new.finished ≡ tx.old.finished }
{
    for _ in 0..100_000 {
        match tx.pump(cut) {
            Ok(0) | Err(_) => return,
            Ok(_) => {}
        }
    }
}

// Offers Marks from this number on, up to `count`, while the link is ready for them.
fn send(tx: &mut LinkTx<RingTx, RingRx>, next: u64, count: u64, cut: u32) -> u64
    requires { tx.old.finished ≡ false }
    ensures { tx.new.finished ≡ false }
{
    let mut next = next;
    drain(tx, cut);
    'marks: for _ in 0..count {
        if next >= count || !tx.ready() {
            return next;
        }
        tx.offer(&mark(next));
        next += 1;
        drain(tx, cut);
    }
    next
}

// Takes what has come: how many Marks came in order behind those before.
fn receive(rx: &mut LinkRx<RingRx, RingTx>, next: u64, cut: u32) -> u64 {
    let mut next = next;
    for _ in 0..100_000 {
        let Ok(moved) = rx.pump(cut) else {
            return next;
        };
        match take(rx) {
            Some(frame) => {
                if frame == mark(next) {
                    next = next.saturating_add(1);
                }
            }
            None => {
                if moved == 0 {
                    return next;
                }
            }
        }
    }
    next
}

#[test]
fn a_thousand_marks_go_over_three_credits(rt: HostRuntime) -> Result<(), Fail> {
    for cut in [1, 2, 3, 4096] {
        let (mut tx, mut rx) = ring_link(rt.alloc(), 3)?;
        let mut next = 0;
        let mut came = 0;
        'rounds: for _ in 0..1000 {
            next = send(&mut tx, next, 1000, cut);
            came = receive(&mut rx, came, cut);
        }
        assert_eq!(rt; (came, rx.taken()), (1000, 1000), "cut {cut}");
        let row = tx.row(4, 7, rx.taken());
        assert_eq!(rt; (row.from, row.to), (4, 7));
        assert_eq!(rt;
            (row.sent, row.taken, row.most_held),
            (1000, 1000, 3),
            "cut {cut}"
        );
    }
    Ok(())
}
