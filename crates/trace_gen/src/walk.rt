//! Where and when packets are seen.

ghost use Rattle.std.specs.Prelude.{◌≡◌, ◌<◌, ◌++◌, OnOk, IfOk};
ghost use Rattle.trace_gen.specs.Captures.{all_seen};
ghost use Rattle.trace_gen.specs.Sightings.{walk, state_behind};

use crate::draws::Draws;
use crate::sighting::{Sighting, SightingList};
use ds_base::OutOfMemory;
use job_table::put;
use std::alloc::Global;

/// How many packets a sample has.
const PACKETS: u16 = 20_000;

/// All that is seen in the sample of a number: packet by packet, and of each in the order of times.
pub(crate) fn all_seen(alloc: Global, number: u64) -> Result<SightingList, OutOfMemory>
    ensures { IfOk result (λ seen. seen.items ≡ all_seen number) }
{
    let mut seen = SightingList::new(alloc);
    let mut draws = Draws::new(number);
    for id in 0..PACKETS {
        push_walk(&mut seen, &mut draws, id)?;
    }
    Ok(seen)
}

/// Puts the sightings of a packet behind others.
fn push_walk(seen: &mut SightingList, draws: &mut Draws, id: u16) -> Result<(), OutOfMemory>
    requires { id < 20000 }
    ensures seen { OnOk result (seen.new.items ≡ seen.old.items ++ walk id draws.old.state) }
    ensures state { OnOk result (draws.new.state ≡ state_behind draws.old.state) }
{
    let mut capture = draws.draw(8);
    let count = 2 + draws.draw(3) as u8;
    let mut time = 1_000_000 * (u64::from(id) + 1);
    for k in 0..count {
        let sighting = Sighting {
            capture,
            time,
            id,
            ttl: 64 - k,
        };
        put(seen, sighting)?;
        capture = (capture + 1 + draws.draw(3)) % 8;
        time += 1000 + u64::from(draws.draw(9000));
    }
    Ok(())
}
