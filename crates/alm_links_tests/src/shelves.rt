//! A wheel whose calls may be made at any time: those whose conditions aren't met do nothing.

ghost use Rattle.std.specs.Prelude.{◌≡◌, ◌<◌, length};

use alm_wheel::Wheel;
use std::alloc::{AllocError, Global};

#[derive(Drop)]
pub struct Shelves {
    wheel: Wheel,
    pub nodes: u32,
    ghost sizes: { length wheel.deadlines ≡ nodes },
}

impl Shelves {
    pub fn new(alloc: Global, nodes: u32) -> Result<Self, AllocError> {
        Ok(Shelves {
            wheel: Wheel::new(alloc, nodes)?,
            nodes,
        })
    }

    pub fn copy(&self, alloc: Global) -> Result<Self, AllocError> {
        Ok(Shelves {
            wheel: self.wheel.copy(alloc)?,
            nodes: self.nodes,
        })
    }

    pub fn deadline_of(&self, node: u32) -> Option<u64> {
        if node < self.nodes {
            self.wheel.deadline_of(node)
        } else {
            None
        }
    }

    pub fn put(&mut self, node: u32, deadline: u64) -> bool {
        let may = node < self.nodes && self.wheel.deadline_of(node).is_none();
        if may {
            self.wheel.put(node, deadline);
        }
        may
    }

    pub fn remove(&mut self, node: u32) -> bool {
        let may = node < self.nodes && self.wheel.deadline_of(node).is_some();
        if may {
            self.wheel.remove(node);
        }
        may
    }

    /// What is due.
    pub fn due(&self, alloc: Global, from: u64, to: u64) -> Result<Vec<u32>, AllocError> {
        let mut out = Vec::with_capacity(alloc, self.nodes as usize)?;
        self.wheel.due(from, to, &mut out);
        Ok(out)
    }

    fn next(&self, node: u32) -> Option<u32> {
        if node < self.nodes && self.wheel.deadline_of(node).is_some() {
            self.wheel.next(node)
        } else {
            None
        }
    }

    /// Whether a slot has exactly these nodes, in this order.
    pub fn is_slot(&self, slot: u32, wanted: &[u32]) -> bool {
        let mut same = slot < 256 && self.wheel.first(slot) == wanted.first().copied();
        let mut behind = wanted.iter().skip(1);
        for node in wanted {
            same = same && self.next(*node) == behind.next().copied();
        }
        same
    }
}
