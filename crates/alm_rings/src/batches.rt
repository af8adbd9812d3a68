//! The two ends of the batch rings.

ghost use Rattle.std.specs.Prelude.{◌≡◌, ◌+◌, ◌≤◌, ◌++◌, [], IfOk, length, replicate};
ghost use Rattle.alm_rings.specs.Batches.{AreBatchEnds, SameSealEnds, SameFetchEnds, sealed_of, fetched_of, emptied_of, given_of, empties_in, coming_in, places_of, places_in};

use crate::emptied::Emptied;
use crate::fetch_ends::FetchEnds;
use crate::seal_ends::SealEnds;
use alm_types::Batch;
use rtrb::RingBuffer;
use std::alloc::{AllocError, Global};

/// How many batches there are.
const BATCHES: usize = 8;

/// The ends of both batch rings, and the eight batches, empty and with their room, all on the way to the sequencer; an error only
/// if out of memory.
pub fn open_batches(alloc: Global) -> Result<(SealEnds, FetchEnds), AllocError>
    ensures ends { IfOk result (λ r. AreBatchEnds r.0 r.1) }
    ensures new { IfOk result
        (λ r. (sealed_of r.0 ≡ []) × (fetched_of r.1 ≡ []) × (emptied_of r.0 ≡ []) ×
        (given_of r.1 ≡ replicate 8 (record { first = 1; entries = [] }))) }
    ensures places { IfOk result
        (λ r.
        (places_of r.0 ≡ 8) × (places_in r.1 ≡ 0) × (coming_in r.1 ≡ []) × (empties_in r.0 ≡ [])) }
{
    let (full, fetch) = RingBuffer::new(alloc, BATCHES)?;
    let (mut give, empty) = RingBuffer::with_protocol::<Global, Emptied>(alloc, BATCHES)?;
    for _made in 0..BATCHES {
        let batch = Batch::new(alloc)?;
        give.push_reserved(batch);
    }
    let seal = SealEnds { full, empty };
    let fetch = FetchEnds {
        full: fetch,
        empty: give,
    };
    Ok((seal, fetch))
}

/// Synchronises the ends of both batch rings, which must be in the same thread: each learns what the other did. Takes
/// no memory.
pub fn batches_beside(seal: &mut SealEnds, fetch: &mut FetchEnds)
    requires { AreBatchEnds seal.old fetch.old }
    ensures ends { AreBatchEnds seal.new fetch.new }
    ensures same { SameSealEnds seal.old seal.new × SameFetchEnds fetch.old fetch.new }
    ensures sealed { (sealed_of seal.new ≡ sealed_of seal.old) ×
        (fetched_of fetch.new ≡ fetched_of fetch.old) }
    ensures empties { (emptied_of seal.new ≡ emptied_of seal.old) ×
        (given_of fetch.new ≡ given_of fetch.old) }
    ensures fetched { fetched_of fetch.new ++ coming_in fetch.new ≡ sealed_of seal.new }
    ensures emptied { emptied_of seal.new ++ empties_in seal.new ≡ given_of fetch.new }
    ensures places { 8 + length (fetched_of fetch.new) ≤
        places_of seal.new + length (sealed_of seal.new) }
    ensures back { 8 + length (emptied_of seal.new) ≤
        places_in fetch.new + length (given_of fetch.new) }
{
    seal.full.slots_beside(&mut fetch.full);
    fetch.empty.slots_beside(&mut seal.empty);
    fetch.full.slots_beside(&mut seal.full);
    seal.empty.slots_beside(&mut fetch.empty);
}
