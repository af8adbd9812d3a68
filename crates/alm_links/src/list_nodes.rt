//! The nodes of a list, one after the other.

ghost use Rattle.std.specs.Prelude.{◌≡◌, ◌<◌, ◌^◌, length};
ghost use Rattle.std.specs.Iterator.{YieldsFirst, item_count};

use crate::links::Link;
use std::marker::Model;

/// The nodes of a list that are left.
#[derive(Drop)]
pub struct ListNodes<'a> {
    links: &'a [Link],
    at: usize,
    left: u32,
}

impl<'a> Model for ListNodes<'a> {
    ghost use Rattle.std.specs.Prelude.{ℕ, List};

    ghost Value = { List ℕ };

    ghost use Rattle.alm_links.specs.Left.{nodes_left, IsWithin};

    ghost view = { nodes_left };

    ghost invariant = { IsWithin };
}

impl<'a> ListNodes<'a> {
    ghost use Rattle.std.specs.List.{AllByRecursion};
    ghost use Rattle.alm_links.specs.Links.{walk};

    pub(crate) fn new(links: &'a [Link], at: usize, left: u32) -> Self
        requires here { at < length links.now }
        requires small { AllByRecursion (λ x. x < length links.now) (walk links.now left at) }
        requires fits { AllByRecursion (λ x. x < 2 ^ 32) (walk links.now left at) }
        ensures { result ≡ walk links.now left at }
    {
        ListNodes { links, at, left }
    }
}

impl<'a> Iterator for ListNodes<'a> {
    type Item = u32;

    ghost next_gives = { YieldsFirst (λ s. s) };

    ghost remaining = { item_count (λ s. s) };

    fn next(&mut self) -> Option<u32> {
        if self.left == 0 {
            return None;
        }
        self.at = self.links[self.at].next;
        self.left -= 1;
        Some(self.at as u32)
    }
}
