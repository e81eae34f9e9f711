//! What is true of the ends of attempts, over the definitions alone: the functions do nothing, and their contracts are the laws.

ghost use Rattle.std.specs.Prelude.{◌≡◌, ◌+◌, ℕ, All, List, Some, count_by, filter, length, map, sum_by};
ghost use Rattle.rv32_image.specs.Image.{LoadedImage, IsImage};
ghost use Rattle.spec_history.specs.declared.entry.Entry.{Entry};
ghost use Rattle.spec_history.specs.FlatState.{FlatState};
ghost use Rattle.spec_history.specs.Replay.{replay};
ghost use Rattle.conflicts.specs.declared.explanation.Explanation.{Explanation};
ghost use Rattle.conflicts.specs.Attempts.{is_begin};
ghost use Rattle.conflicts.specs.Explained.{IsExplained, places_of, violations_before};
ghost use Rattle.conflict_findings.specs.declared.ended.Ended.{Ended};
ghost use Rattle.conflict_findings.specs.declared.ended.Ending.TheVariants.{Committed, Violated, Cancelled};
ghost use Rattle.conflict_findings.specs.declared.ended.Running.{Running};
ghost use Rattle.conflict_findings.specs.Ends.{ended_before, running_after};
ghost use Rattle.conflict_findings.specs.Tallies.{count_in, done_all, done_in, done_running, is_ended};

/// What is useful, lost, dropped and unsettled is all that was executed: each attempt that has ended did so in one way.
pub fn endings_make_up_all()
    ensures count { (ended : List Ended) → length ended ≡ count_in Committed ended + count_in Violated ended + count_in Cancelled ended }
    ensures done { (ended : List Ended) (running : List Running) → done_all ended running
        ≡ done_in Committed ended + done_in Violated ended + done_in Cancelled ended + done_running running }
{}

/// The attempts that were violated are those that the explanations of a history tell of, in order: what each of these lost is what
/// the attempt had executed.
pub fn the_violated_are_the_explained()
    ensures each { (image : LoadedImage) (cores : ℕ) (entries : List Entry) (s : FlatState) (found : List Explanation) → IsImage image
        → replay image cores entries ≡ Some s → All (IsExplained image cores entries) found → places_of found ≡ violations_before entries (length entries)
        → map (λ (e : Ended). e.done) (filter (is_ended Violated) (ended_before image cores entries (length entries))) ≡ map (λ (e : Explanation). e.lost) found }
    ensures lost { (image : LoadedImage) (cores : ℕ) (entries : List Entry) (s : FlatState) (found : List Explanation) → IsImage image
        → replay image cores entries ≡ Some s → All (IsExplained image cores entries) found → places_of found ≡ violations_before entries (length entries)
        → done_in Violated (ended_before image cores entries (length entries)) ≡ sum_by (λ (e : Explanation). e.lost) found }
{}

/// Each attempt that begins ends once, or goes on: in a history that replays there are as many entries that begin one as attempts
/// that ended, and that go on.
pub fn each_attempt_ends_once_or_goes_on()
    ensures { (image : LoadedImage) (cores : ℕ) (entries : List Entry) (s : FlatState) → IsImage image → replay image cores entries ≡ Some s
        → count_by (λ (e : Entry). is_begin e.what) entries
        ≡ length (ended_before image cores entries (length entries)) + length (running_after image cores entries) }
{}
