//! Links of one process, and shuffles over them.
mod links;
mod shuffles;
mod threads;
mod turns;

use credit_link::{LinkRx, RingRx, RingTx};
use node_frames::Frame;

// The next frame that has come, granted.
fn take(rx: &mut LinkRx<RingRx, RingTx>) -> Option<Frame> {
    match rx.pull() {
        Ok(Some(frame)) => {
            rx.grant();
            Some(frame)
        }
        _ => None,
    }
}

// The number behind this one in a row that looks drawn (Knuth's MMIX generator); its upper bits are taken.
fn draw(seed: u64) -> u64 {
    seed.wrapping_mul(6_364_136_223_846_793_005)
        .wrapping_add(1_442_695_040_888_963_407)
}
