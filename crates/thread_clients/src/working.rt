ghost use Rattle.std.specs.Prelude.{◌≡◌, ℕ, ◌<◌, List, length, slice_get, Some};

use std::thread::{Threads, for_each_mut};

/// What works at an item of a number.
pub(crate) trait Works<J> {
    // the work can begin
    ghost MayWork: { Self → ℕ → J → Type 0 };

    // what it did
    ghost HasWorked: { Self → ℕ → J → J → Type 0 };

    /// Works at the item of a number.
    fn work(&self, number: usize, item: &mut J)
        requires { MayWork self.now number item.old }
        ensures { HasWorked self.now number item.old item.new };
}

/// Works at all items beside each other, each in a thread of its own as far as threads can be had.
pub(crate) fn work_beside<J: Send, W: Works<J> + Sync, R: Threads + Sync>(
    rt: &R,
    worker: &W,
    items: &mut [J],
)
    requires { (k : ℕ) (item : J) → slice_get items.old k ≡ Some item → W.MayWork worker.now k item }
    ensures count { length items.new ≡ length items.old }
    ensures each { (k : ℕ) (item other : J) → slice_get items.old k ≡ Some item → slice_get items.new k ≡ Some other → W.HasWorked worker.now k item other }
{
    let threads = items.len().max(1);
    for_each_mut(
        rt,
        items,
        threads,
        &|number: usize, item: &mut J|
            requires { W.MayWork worker.now number item.now }
        { worker.work(number, item) },
    );
}
