//! Growths that were refused.

ghost use Rattle.std.specs.Prelude.{◌≡◌, ◌<◌, ◌≤◌, OnOk, OnErr, vec_capacity};
ghost use Rattle.alm_types.specs.Counts.{one_more};

use std::alloc::AllocError;
use std::marker::Model;

/// How many growths of a list were refused, up to the greatest number. Only `reserve` counts one.
#[derive(Drop)]
pub struct RefusedGrowths {
    count: u64,
}

impl Model for RefusedGrowths {
    ghost use Rattle.std.specs.Prelude.{ℕ};

    ghost Value = { ℕ };

    ghost view = { λ g. g.count };
}

impl RefusedGrowths {
    pub fn none() -> Self
        ensures { result ≡ 0 }
    {
        RefusedGrowths { count: 0 }
    }

    /// Reserves room for `numbers` numbers in all, and counts a refused growth; the list stays.
    pub fn reserve(&mut self, list: &mut Vec<u32>, numbers: usize) -> Result<(), AllocError>
        ensures room { OnOk result (numbers ≤ vec_capacity list.new) }
        ensures whole { OnOk result (self.new ≡ self.old) }
        ensures refused { OnErr result (self.new ≡ one_more self.old) }
        ensures missing { OnErr result (vec_capacity list.old < numbers) }
        ensures list { list.new.items ≡ list.old.items }
    {
        let held = list.len();
        if numbers <= held {
            return Ok(());
        }
        match list.try_reserve(numbers - held) {
            Ok(()) => Ok(()),
            Err(error) => {
                self.count = self.count.saturating_add(1);
                Err(error)
            }
        }
    }
}
