//! What one run of the loop shows.
ghost use Rattle.std.specs.Prelude.{IfOk};
ghost use Rattle.depends.specs.Ran as spec;

use dependences::{CacheConflict, RunInOrder, shown_in_order, shown_over_caches};
use never_or_shown::InOrder;
use never_or_shown::laws::without_line_conflict_and_shared_overflow_never_over_bus;
use rv32_exec::Image;
use std::alloc::{AllocError, Global};
use std::convert::AsStr;
use trace_commands::{Store, store_named};

/// What the run in order has shown over the caches of the image's machine.
#[derive(Clone, Copy)]
pub enum OverCaches {
    /// Nothing: it didn't look at them.
    Unseen,
    /// On so many cores two epochs conflict in this.
    Conflict(CacheConflict),
    /// No schedule of so many cores, or of fewer, has a violation.
    Clear,
}

/// What the run in order shows.
#[derive(Drop)]
pub struct Ran {
    pub run: RunInOrder,
    pub over_caches: OverCaches,
}

/// What the lines of the stores take of it.
#[derive(Clone, Copy)]
pub struct Seen {
    pub in_order: InOrder,
    pub over_caches: OverCaches,
}

/// What the run in order shows. Where one of these words names caches, it looks at those of the image's machine, too.
///
/// `AllocError`: memory ran out.
pub fn ran_for<S: AsStr>(
    alloc: Global,
    image: &Image,
    cores: u32,
    stores: &[S],
) -> Result<Ran, AllocError>
    ensures { IfOk result (spec.IsRan image.now cores) }
{
    if name_caches(stores) {
        return run_over_caches(alloc, image, cores);
    }
    let Ok(run) = shown_in_order(alloc, image) else {
        return Err(AllocError);
    };
    Ok(Ran {
        run,
        over_caches: OverCaches::Unseen,
    })
}

/// Whether one of these words names caches.
fn name_caches<S: AsStr>(words: &[S]) -> bool {
    for word in words {
        if let Some(Store::Caches(_)) = store_named(word.as_str()) {
            return true;
        }
    }
    false
}

fn run_over_caches(alloc: Global, image: &Image, cores: u32) -> Result<Ran, AllocError>
    ensures { IfOk result (spec.IsRan image.now cores) }
{
    without_line_conflict_and_shared_overflow_never_over_bus();
    let Ok(ran) = shown_over_caches(alloc, image, cores) else {
        return Err(AllocError);
    };
    let run = ran.run;
    match ran.conflict {
        Some(conflict) => Ok(Ran {
            run,
            over_caches: OverCaches::Conflict(conflict),
        }),
        None => Ok(Ran {
            run,
            over_caches: OverCaches::Clear,
        }),
    }
}
