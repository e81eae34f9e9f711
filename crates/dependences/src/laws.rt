//! What no schedule can roll back: each function does nothing, and its contract is the law.

ghost use Rattle.std.specs.Prelude.{◌≡◌, ℕ, ◌+◌, ◌<◌, ◌≤◌, false, List, Option, Some};
ghost use Rattle.rv32_image.specs.Image.{LoadedImage, IsImage};
ghost use Rattle.spec_history.specs.declared.entry.Entry.{Entry};
ghost use Rattle.spec_history.specs.FlatState.{FlatState};
ghost use Rattle.spec_history.specs.Replay.{replay};
ghost use Rattle.spec_history.specs.Conflict.{AreKnown};
ghost use Rattle.epoch_paths.specs.InOrder.{IsInOrder, memory_before};
ghost use Rattle.dependences.specs.Conflict.{Conflict, ConflictInOrder, LineConflict, LineConflictInOrder, Overflow, OverflowInOrder, path_memory};
ghost use Rattle.dependences.specs.Shared.{SharedOverflow, SharedOverflowInOrder};
ghost use Rattle.dependences.specs.Nearest.{IsFar, IsNearest};
ghost use Rattle.homefree.specs.Caused.{MeetInBytes};
ghost use Rattle.homefree.specs.Ending.{NoneStartsAfterCancel};
ghost use Rattle.dependences.specs.Laws.{IsAlike, NoneIsHurt};

use homefree::Book;
use violations::EpochStore;

/// Where no two epochs conflict over bytes, the path of an epoch that runs in order is that run: it comes to the same harts, after
/// as many instructions.
pub fn without_conflict_paths_are_in_order()
    ensures { (image : LoadedImage) (cores epoch : ℕ) → IsImage image → (Conflict image cores → ⊥) → epoch < image.epochs → IsInOrder image epoch
        → IsAlike image epoch (path_memory image cores epoch) (memory_before image epoch) }
{}

/// One run in order, with the epochs past its end alone, shows whether there are conflicts: where it shows none, there is none
/// on the paths. So over bytes, over lines, and, where it shows no conflict over bytes, of buffers, also of those that take what is
/// shared alone.
pub fn one_run_shows_conflicts()
    ensures bytes { (image : LoadedImage) (cores : ℕ) → IsImage image → (ConflictInOrder image cores → ⊥) → Conflict image cores → ⊥ }
    ensures lines { (image : LoadedImage) (cores : ℕ) → IsImage image → (LineConflictInOrder image cores → ⊥) → LineConflict image cores → ⊥ }
    ensures buffers { (image : LoadedImage) (cores : ℕ) → IsImage image → (ConflictInOrder image cores → ⊥) → (OverflowInOrder image cores → ⊥) → Overflow image cores → ⊥ }
    ensures shared { (image : LoadedImage) (cores : ℕ) → IsImage image → (ConflictInOrder image cores → ⊥) → (SharedOverflowInOrder image cores → ⊥) → SharedOverflow image cores → ⊥ }
{}

/// From fewer cores to more a conflict stays one: where no two epochs conflict on so many cores, none do on fewer. So it is over
/// bytes, over lines, and, where none conflict over bytes, of buffers, also of those that take what is shared alone.
pub fn fewer_cores_conflict_no_more()
    ensures bytes { (image : LoadedImage) (fewer more : ℕ) → IsImage image → fewer ≤ more → (Conflict image more → ⊥) → Conflict image fewer → ⊥ }
    ensures lines { (image : LoadedImage) (fewer more : ℕ) → IsImage image → fewer ≤ more → (LineConflict image more → ⊥) → LineConflict image fewer → ⊥ }
    ensures buffers { (image : LoadedImage) (fewer more : ℕ) → IsImage image → fewer ≤ more → (Conflict image more → ⊥) → (Overflow image more → ⊥) → Overflow image fewer → ⊥ }
    ensures shared { (image : LoadedImage) (fewer more : ℕ) → IsImage image → fewer ≤ more → (Conflict image more → ⊥) → (SharedOverflow image more → ⊥) → SharedOverflow image fewer → ⊥ }
{}

/// Two epochs that conflict over lines, where the cores run the later one beside all before it, do so on just as many cores as that takes.
pub fn early_epochs_conflict_on_few_cores()
    ensures { (image : LoadedImage) (cores : ℕ) → (conflict : LineConflictInOrder image cores) → conflict.later < cores → LineConflictInOrder image (conflict.later + 1) }
{}

/// A buffer that is too small for what is shared is too small for all that is stored, which is the coarser.
pub fn shared_overflows_are_overflows()
    ensures { (image : LoadedImage) (cores : ℕ) → SharedOverflow image cores → Overflow image cores }
{}

/// Where all epochs of a loop run in order, and those that depend on each other are as far apart as there are cores, no two
/// conflict over bytes.
pub fn far_dependences_do_not_conflict()
    ensures { (image : LoadedImage) (cores : ℕ) (nearest : Option ℕ) → IsImage image → IsInOrder image image.epochs → IsNearest image nearest
        → IsFar cores nearest → Conflict image cores → ⊥ }
{}

/// Where no epoch stores a byte that a later one, which so many cores can run beside it, reads from outside: no legal history of
/// so many cores has a violation, if violations meet in bytes that are committed.
pub fn without_conflict_none_is_hurt()
    ensures { (image : LoadedImage) (cores : ℕ) (history : List Entry) (s : FlatState) → IsImage image → replay image cores history ≡ Some s
        → NoneStartsAfterCancel history → MeetInBytes image cores history → (Conflict image cores → ⊥) → NoneIsHurt history }
{}

/// Of every book over a store without caches, whatever turns led to it, on one thread or on many: where no two epochs conflict over
/// bytes, its history has no violation.
pub fn without_conflict_no_book_is_hurt<S: EpochStore>(book: &Book<S>)
    ensures { (S.view book.now.store).cached ≡ false → (Conflict book.now.image book.now.cores → ⊥) → NoneIsHurt book.now.history }
{
    without_conflict_none_is_hurt();
    book.look();
}

/// Where no epoch stores in a line of the caches in which a later one, which so many cores can run beside it, reads a byte from
/// outside, nor touches a line of which the later one's buffer is too small: no legal history of so many cores has a violation, if
/// each violation is of a kind.
pub fn without_line_conflict_and_overflow_none_is_hurt()
    ensures { (image : LoadedImage) (cores : ℕ) (history : List Entry) (s : FlatState) → IsImage image → replay image cores history ≡ Some s
        → NoneStartsAfterCancel history → AreKnown image cores history → (LineConflict image cores → ⊥) → (Overflow image cores → ⊥) → NoneIsHurt history }
{}

/// Of every book, whatever turns led to it, on one thread or on many, and over any store: where no two epochs conflict over lines of
/// the caches, and none overflows, its history has no violation.
pub fn without_line_conflict_and_overflow_no_book_is_hurt<S: EpochStore>(book: &Book<S>)
    ensures { (LineConflict book.now.image book.now.cores → ⊥) → (Overflow book.now.image book.now.cores → ⊥) → NoneIsHurt book.now.history }
{
    without_line_conflict_and_overflow_none_is_hurt();
    book.look();
}
