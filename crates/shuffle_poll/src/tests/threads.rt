//! A link whose two ends are in two threads.
ghost use Rattle.std.specs.Prelude.{◌≡◌, false};
ghost use Rattle.credit_link.specs.Frames.{is_finish};

use super::{draw, take};
use credit_link::{LinkRx, LinkTx, RingRx, RingTx, ring_link};
use node_frames::Frame;
use std::process::Abort;
use std::test::Fail;
use std::thread;

const FRAMES: u64 = 100_000;

const TURNS: u64 = 1_000_000_000;

// The frame number `n`.
fn nth(n: u64) -> Frame
    ensures { is_finish result ≡ false }
{
    if n % 2 == 0 {
        Frame::GroupMark { mark: n }
    } else {
        Frame::Mark {
            capture: 3,
            mark: n,
        }
    }
}

// A cut of 1 to 4,096 bytes.
fn cut_of(seed: u64) -> u32 {
    ((seed >> 33) % 4096) as u32 + 1
}

// Sends all frames, until their credits have come back: how many were sent.
fn send(tx: LinkTx<RingTx, RingRx>, seed: u64) -> u64
    requires { tx.finished ≡ false }
{
    let mut tx = tx;
    let mut seed = seed;
    let mut next = 0;
    'turns: for _ in 0..TURNS {
        seed = draw(seed);
        if tx.pump(cut_of(seed)).is_err() || (next >= FRAMES && tx.held() == 0) {
            return next;
        }
        if next < FRAMES && tx.ready() {
            tx.offer(&nth(next));
            next += 1;
        }
        thread::yield_now();
    }
    next
}

// Takes frames as long as they come in order, until all have come and no credit is owed: how many came.
fn receive(rx: LinkRx<RingRx, RingTx>, seed: u64) -> u64 {
    let mut rx = rx;
    let mut seed = seed;
    let mut came = 0;
    'turns: for _ in 0..TURNS {
        seed = draw(seed);
        if rx.pump(cut_of(seed)).is_err() || (came >= FRAMES && rx.owed() == 0) {
            return came;
        }
        match take(&mut rx) {
            Some(frame) => {
                if frame != nth(came) {
                    return came;
                }
                came = came.saturating_add(1);
            }
            None => thread::yield_now(),
        }
    }
    came
}

#[test]
fn a_link_carries_frames_between_two_threads(rt: HostRuntime) -> Result<(), Fail> {
    let (tx, rx) = ring_link(rt.alloc(), 16)?;
    let counts = thread::join(
        &rt,
        move ||
            requires { tx.finished ≡ false }
        { send(tx, 1) },
        move || receive(rx, 2),
    );
    assert_eq!(rt; counts, (FRAMES, FRAMES));
    Ok(())
}
