//! What no schedule can roll back over the caches on a bus: each function does nothing, and its contract is the law.

ghost use Rattle.std.specs.Prelude.{ℕ};
ghost use Rattle.rv32_image.specs.Image.{LoadedImage};
ghost use Rattle.dependences.specs.Conflict.{LineConflict};
ghost use Rattle.dependences.specs.Laws.{NeverOverLines, NoneIsHurt};
ghost use Rattle.never_or_shown.specs.NeverOverBus.{NeverOverBus};
ghost use Rattle.dependences.specs.Shared.{SharedOverflow};

use homefree::Book;
use spec_bus::CachedBus;

/// Of every book over the caches on a bus, whatever turns led to it, on one thread or on many: where no two epochs conflict over
/// lines of the caches, and no epoch stores in a line that an earlier one touches, and in as many other shared lines as its buffer
/// takes, its history has no violation.
pub fn without_line_conflict_and_shared_overflow_no_bus_is_hurt(book: &Book<CachedBus>)
    ensures { (LineConflict book.now.image book.now.cores → ⊥) → (SharedOverflow book.now.image book.now.cores → ⊥) → NoneIsHurt book.now.history }
{
    book.look();
    book.look_back();
}

/// The same of a loop and a number of cores, without a book.
pub fn without_line_conflict_and_shared_overflow_never_over_bus()
    ensures { (image : LoadedImage) (cores : ℕ) → (LineConflict image cores → ⊥) → (SharedOverflow image cores → ⊥) → NeverOverBus image cores }
{}

/// Of every book over the caches: where no such book of its image and so many cores has a violation, its history has none.
pub fn never_over_bus_no_bus_is_hurt(book: &Book<CachedBus>)
    ensures { NeverOverBus book.now.image book.now.cores → NoneIsHurt book.now.history }
{
    book.look();
    book.look_back();
}

/// Where no legal history has a violation, if each is of a kind, no book over the caches has one: `dependences` has laws of the first.
pub fn never_over_lines_never_over_bus()
    ensures { (image : LoadedImage) (cores : ℕ) → NeverOverLines image cores → NeverOverBus image cores }
{}
