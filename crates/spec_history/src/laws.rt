//! Laws of replay, over the definitions alone: each function does nothing, and its contract is the law.

ghost use Rattle.std.specs.Prelude.{◌≡◌, ℕ, ◌++◌, ◌∷◌, [], List, Some, None};
ghost use Rattle.rv32_image.specs.Image.{LoadedImage, IsImage};
ghost use Rattle.rv32_exec.specs.declared.sequential.End.{End};
ghost use Rattle.spec_history.specs.declared.entry.Entry.{Entry};
ghost use Rattle.spec_history.specs.declared.entry.What.TheVariants.{Fault};
ghost use Rattle.spec_history.specs.FlatState.{FlatState};
ghost use Rattle.spec_history.specs.Effect.{effect};
ghost use Rattle.spec_history.specs.Refusal.{refusal_of};
ghost use Rattle.spec_history.specs.Replay.{replay, replay_from, counts_of, plus};
ghost use Rattle.spec_history.specs.Laws.{IsPublished, EndsInOrder, FaultsInOrder, Splits, IsKept};

/// In every history that replays, committed memory is exactly what the epochs before the homefree one, and the
/// instructions that the homefree one has published, leave when they run in order from the loaded image.
pub fn committed_memory_is_published()
    ensures { (image : LoadedImage) (cores : ℕ) (entries : List Entry) (s : FlatState) → IsImage image
        → replay image cores entries ≡ Some s → IsPublished image s }
{}

/// A history that ends the loop ends it as the sequential loop does, with its memory. A fault is that of the
/// sequential loop, and stands at the homefree epoch; an exit is that of the sequential loop, and the next epoch is homefree.
/// But for a fault, no core runs any more.
pub fn the_end_is_that_of_the_sequential_loop()
    ensures { (image : LoadedImage) (cores : ℕ) (entries : List Entry) (s : FlatState) (end : End) → IsImage image
        → replay image cores entries ≡ Some s → s.end ≡ Some end → EndsInOrder image s end }
{}

/// Every fault in a history that replays is its last entry. It is that of the sequential loop, and stands at the homefree
/// epoch: an epoch that faults, or reaches its instruction limit, says so only once it is homefree, and no epoch before it has
/// exited.
pub fn a_fault_is_that_of_the_sequential_loop()
    ensures { (image : LoadedImage) (cores : ℕ) (before later : List Entry) (by cause pc : ℕ) (s : FlatState) → IsImage image
        → replay image cores (before ++ record { by = by; what = Fault cause pc } ∷ later) ≡ Some s
        → FaultsInOrder image s cause pc later }
{}

/// A history that replays, and one more entry that is legal after it, replay to that entry's effect.
pub fn a_legal_entry_goes_on()
    ensures { (image : LoadedImage) (cores : ℕ) (entries : List Entry) (s : FlatState) (entry : Entry) → replay image cores entries ≡ Some s
        → refusal_of image cores s entry ≡ None → replay image cores (entries ++ entry ∷ []) ≡ Some (effect image s entry) }
{}

/// A history replays where its first entries do, and the others from the state after them; and then only.
pub fn a_replay_splits()
    ensures splits { (image : LoadedImage) (cores : ℕ) (first later : List Entry) (last : FlatState) → replay image cores (first ++ later) ≡ Some last
        → Splits image cores first later last }
    ensures joins { (image : LoadedImage) (cores : ℕ) (first later : List Entry) (s last : FlatState) → replay image cores first ≡ Some s
        → replay_from image cores s later ≡ Some last → replay image cores (first ++ later) ≡ Some last }
{}

/// The counts of two histories, one after the other, are the sums of their counts.
pub fn counts_add()
    ensures { (first later : List Entry) → counts_of (first ++ later) ≡ plus (counts_of first) (counts_of later) }
{}

/// A history that replays has a commit for each epoch before the homefree one, and no other.
pub fn commits_are_the_epochs_before_the_homefree_one()
    ensures { (image : LoadedImage) (cores : ℕ) (entries : List Entry) (s : FlatState) → replay image cores entries ≡ Some s
        → (counts_of entries).commits ≡ s.homefree }
{}

/// What every history that replays keeps until the loop is over: the cores' epochs, the homefree core, what has been read,
/// and what each speculative core has computed.
pub fn every_replay_keeps()
    ensures { (image : LoadedImage) (cores : ℕ) (entries : List Entry) (s : FlatState) → IsImage image
        → replay image cores entries ≡ Some s → s.end ≡ None → IsKept image cores s }
{}
