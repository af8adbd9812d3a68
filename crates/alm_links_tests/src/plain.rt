//! The same lists as vectors: the lists of one family in a row.

use std::alloc::{AllocError, Global};
use std::test::Fail;

pub type Lists = Vec<Vec<u32>>;

pub fn empty(alloc: Global, lists: u32) -> Result<Lists, AllocError> {
    let mut all = Vec::with_capacity(alloc, lists as usize)?;
    for _list in 0..lists {
        all.push(Vec::new(alloc))?;
    }
    Ok(all)
}

pub fn push_back(lists: &mut Lists, list: u32, node: u32) -> Result<(), Fail> {
    if let Some(nodes) = lists.get_mut(list as usize) {
        nodes.push(node)?;
    }
    Ok(())
}

pub fn insert_before(lists: &mut Lists, at: u32, node: u32) -> Result<(), Fail> {
    for nodes in lists.iter_mut() {
        if let Some(place) = nodes.iter().position(|x| *x == at) {
            nodes.insert(place, node)?;
        }
    }
    Ok(())
}

fn key_of(keys: &[u64], node: u32) -> u64 {
    keys.get(node as usize).copied().unwrap_or(0)
}

pub fn insert_by(lists: &mut Lists, list: u32, node: u32, keys: &[u64]) -> Result<(), Fail> {
    if let Some(nodes) = lists.get_mut(list as usize) {
        let key = key_of(keys, node);
        match nodes.iter().position(|x| key_of(keys, *x) > key) {
            Some(place) => nodes.insert(place, node)?,
            None => nodes.push(node)?,
        }
    }
    Ok(())
}

pub fn unlink(lists: &mut Lists, node: u32) {
    for nodes in lists.iter_mut() {
        nodes.retain(|x| *x != node);
    }
}

/// The list that a node is in.
pub fn list_of(lists: &Lists, node: u32) -> Option<u32> {
    for (list, nodes) in lists.iter().enumerate() {
        if nodes.iter().any(|x| *x == node) {
            return u32::try_from(list).ok();
        }
    }
    None
}
