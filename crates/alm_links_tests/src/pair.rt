//! Two families whose calls may be made at any time: those whose conditions aren't met do nothing.

ghost use Rattle.std.specs.Prelude.{◌<◌};
ghost use Rattle.alm_links_tests.specs.Sizes.{HasSizes};

use alm_links::Chains;
use std::alloc::{AllocError, Global};

pub const FAMILIES: u32 = 2;

#[derive(Drop)]
pub struct Pair {
    chains: Chains,
    pub nodes: u32,
    pub lists: u32,
    ghost sizes: { HasSizes 2 nodes lists chains },
}

impl Pair {
    /// Two families of `lists` lists over `nodes` nodes.
    pub fn new(alloc: Global, nodes: u32, lists: u32) -> Result<Self, AllocError> {
        Ok(Pair {
            chains: Chains::new(alloc, nodes, &[lists, lists])?,
            nodes,
            lists,
        })
    }

    pub fn copy(&self, alloc: Global) -> Result<Self, AllocError> {
        Ok(Pair {
            chains: self.chains.copy(alloc)?,
            nodes: self.nodes,
            lists: self.lists,
        })
    }

    pub fn list_of(&self, family: u32, node: u32) -> Option<u32> {
        if family < FAMILIES && node < self.nodes {
            self.chains.list_of(family, node)
        } else {
            None
        }
    }

    pub fn push_back(&mut self, family: u32, list: u32, node: u32) -> bool {
        let may = family < FAMILIES
            && list < self.lists
            && node < self.nodes
            && self.chains.list_of(family, node).is_none();
        if may {
            self.chains.push_back(family, list, node);
        }
        may
    }

    pub fn insert_before(&mut self, family: u32, at: u32, node: u32) -> bool {
        let may = family < FAMILIES
            && at < self.nodes
            && node < self.nodes
            && self.chains.list_of(family, at).is_some()
            && self.chains.list_of(family, node).is_none();
        if may {
            self.chains.insert_before(family, at, node);
        }
        may
    }

    pub fn insert_by(&mut self, family: u32, list: u32, node: u32, keys: &[u64]) -> bool {
        let may = family < FAMILIES
            && list < self.lists
            && node < self.nodes
            && self.nodes as usize <= keys.len()
            && self.chains.list_of(family, node).is_none();
        if may {
            self.chains.insert_by(family, list, node, keys);
        }
        may
    }

    pub fn unlink(&mut self, family: u32, node: u32) -> bool {
        let may = family < FAMILIES
            && node < self.nodes
            && self.chains.list_of(family, node).is_some();
        if may {
            self.chains.unlink(family, node);
        }
        may
    }

    /// The neighbours of a node.
    pub fn beside(&self, family: u32, node: u32) -> Option<(Option<u32>, Option<u32>)> {
        if family < FAMILIES && node < self.nodes {
            Some((
                self.chains.prev(family, node),
                self.chains.next(family, node),
            ))
        } else {
            None
        }
    }

    /// Whether a list is exactly these nodes, by every call that reads one.
    pub fn is_list(&self, family: u32, list: u32, wanted: &[u32]) -> bool {
        if family >= FAMILIES || list >= self.lists {
            return false;
        }
        let mut same = self.chains.len(family, list) as usize == wanted.len()
            && self.chains.first(family, list) == wanted.first().copied()
            && self.chains.last(family, list) == wanted.last().copied();
        let mut before = None;
        let mut behind = wanted.iter().skip(1);
        for node in wanted {
            let next = behind.next().copied();
            same = same
                && self.list_of(family, *node) == Some(list)
                && self.beside(family, *node) == Some((before, next));
            before = Some(*node);
        }
        same
    }
}
