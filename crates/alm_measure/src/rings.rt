//! The rings of all areas.

ghost use Rattle.std.specs.Prelude.{◌^◌, ◌<◌, ◌≡◌, All, IfOk, length, map, replicate, sum, vec_capacity};
ghost use Rattle.alm_model.specs.Keeping.{ages_after};
ghost use Rattle.alm_model.specs.Step.{settled_floods};

use crate::ring::Ring;
use alm_model::{Ages, is_flood};
use std::alloc::{AllocError, Global};

/// Areas without annunciations.
pub fn new_rings(alloc: Global, areas: u8) -> Result<Vec<Ring>, AllocError>
    ensures items { IfOk result (λ rings. rings.items ≡ replicate areas (replicate 600 0)) }
    ensures room { IfOk result (λ rings. vec_capacity rings ≡ length rings.items) }
{
    let mut rings = Vec::with_capacity(alloc, areas as usize)?;
    for _area in 0..areas {
        rings.push_reserved(Ring::new());
    }
    Ok(rings)
}

/// The ages of each area.
pub fn rings_of(alloc: Global, areas: &[Ages]) -> Result<Vec<Ring>, AllocError>
    requires { All (λ ages. sum ages < 2 ^ 64) areas.now }
    ensures items { IfOk result (λ rings. rings.items ≡ areas.now) }
    ensures room { IfOk result (λ rings. vec_capacity rings ≡ length rings.items) }
{
    let mut rings = Vec::with_capacity(alloc, areas.len())?;
    for ages in areas {
        rings.push_reserved(Ring::of(ages));
    }
    Ok(rings)
}

/// The same rings.
pub fn copy_rings(alloc: Global, rings: &[Ring]) -> Result<Vec<Ring>, AllocError>
    ensures items { IfOk result (λ copied. copied.items ≡ rings.now) }
    ensures room { IfOk result (λ copied. vec_capacity copied ≡ length copied.items) }
{
    let mut copied = Vec::with_capacity(alloc, rings.len())?;
    for ring in rings {
        copied.push_reserved(ring.copy());
    }
    Ok(copied)
}

/// Some seconds pass in each area.
pub fn pass_all(rings: &mut [Ring], seconds: u64)
    ensures { rings.new ≡ map (ages_after seconds) rings.old }
{
    for ring in rings.iter_mut() {
        ring.pass(seconds);
    }
}

/// The flood flags by the windows of the areas.
pub fn settle_all(floods: &mut [bool], rings: &[Ring])
    requires { length floods.old ≡ length rings.now }
    ensures { floods.new ≡ settled_floods (map sum rings.now) floods.old }
{
    for (area, ring) in rings.iter().enumerate() {
        floods[area] = is_flood(ring.window(), floods[area]);
    }
}
