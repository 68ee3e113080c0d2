// New arbiters, one per bank.
ghost use Rattle.std.specs.Prelude.{◌≡◌, length, IfOk};
ghost use Rattle.std.specs.List.{AllByRecursion};

use crate::memory::OutOfMemory;
use std::alloc::Global;

pub(crate) fn new_arbiters<A: Drop, F: Fn() -> A>(
    heap: Global,
    banks: usize,
    make: F,
) -> Result<Vec<A>, OutOfMemory>
    requires { F.IsAlwaysCallable make }
    ensures { IfOk result (λ v. (length v.items ≡ banks) × AllByRecursion (F.post make) v.items) }
{
    // A loop: with `repeat_with(make).take(banks).collect(heap)` two goals stayed open.
    let mut arbiters = Vec::new(heap);
    for _ in 0..banks {
        arbiters.push(make())?;
    }
    Ok(arbiters)
}
