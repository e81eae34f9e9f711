//! What makes true sharing mean something, what a cause is worth, and what is known of each explanation, over the definitions alone: the
//! functions do nothing, and their contracts are the laws.

ghost use Rattle.std.specs.Prelude.{◌≡◌, ◌≢◌, ◌++◌, ℕ, List, ◌∷◌, All, Some, None, true, if◌then◌else◌};
ghost use Rattle.rv32_image.specs.Image.{LoadedImage, IsImage};
ghost use Rattle.spec_history.specs.declared.entry.Entry.{Entry};
ghost use Rattle.spec_history.specs.declared.entry.What.{What};
ghost use Rattle.spec_history.specs.declared.entry.What.TheVariants.{Hurt};
ghost use Rattle.spec_history.specs.FlatState.{CoreState, FlatState};
ghost use Rattle.spec_history.specs.Effect.{effect};
ghost use Rattle.spec_history.specs.Refusal.{refusal_of};
ghost use Rattle.spec_history.specs.Replay.{replay};
ghost use Rattle.spec_history.specs.Conflict.{AreKnown, cause_of, is_notice};
ghost use Rattle.conflicts.specs.declared.explanation.Explanation.{Explanation};
ghost use Rattle.conflicts.specs.Explained.{IsExplained};
ghost use Rattle.spec_history.specs.declared.kind.Kind.TheVariants.{Unexplained};
ghost use Rattle.conflicts.specs.Laws.{cancels_one, commits, missed_by, notices_by, refusal_after};

/// Where a violation is followed by its cause, and the cause commits bytes: without the violation, the cause is refused with
/// `HurtMissing` where the violation is true sharing, and else it is as legal as before.
pub fn only_true_sharing_is_missed()
    ensures { (image : LoadedImage) (cores : ℕ) (entries : List Entry) (s : FlatState) (by victim : ℕ) (violated : CoreState) (cause : What) → IsImage image
        → replay image cores entries ≡ Some s → s.cores victim ≡ Some violated
        → refusal_of image cores s (record { by = by; what = Hurt violated.epoch }) ≡ None
        → refusal_of image cores (effect image s (record { by = by; what = Hurt violated.epoch })) (record { by = by; what = cause }) ≡ None
        → commits (s.cores by) cause ≡ true
        → refusal_of image cores s (record { by = by; what = cause }) ≡ missed_by image s by cause victim }
{}

/// The same, where the core violates and cancels epochs between this violation and its cause, any number of them: this one is
/// left out, and those are kept. They are as legal as before, and the cause is refused with `HurtMissing` where the violation that
/// is left out is true sharing and not moot, and else it is as legal as before.
pub fn only_true_sharing_is_missed_among_others()
    ensures { (image : LoadedImage) (cores : ℕ) (entries : List Entry) (others : List What) (s : FlatState) (by victim : ℕ) (violated : CoreState) (cause : What) → IsImage image
        → replay image cores entries ≡ Some s → s.cores victim ≡ Some violated → All (λ what. is_notice what ≡ true) others
        → refusal_after image cores s (notices_by by (Hurt violated.epoch ∷ others)) (record { by = by; what = cause }) ≡ Some None
        → commits (s.cores by) cause ≡ true
        → refusal_after image cores s (notices_by by others) (record { by = by; what = cause })
        ≡ Some (if cancels_one violated.epoch others then None else missed_by image s by cause victim) }
{}

/// What causes a violation stays its cause, whatever comes after it.
pub fn a_cause_stays()
    ensures { (entries more : List Entry) (place core cause : ℕ) → cause_of entries place core ≡ Some cause → cause_of (entries ++ more) place core ≡ Some cause }
{}

/// Where each violation of a history is of a kind, so is each explanation.
pub fn each_explanation_is_of_a_kind()
    ensures { (image : LoadedImage) (cores : ℕ) (entries : List Entry) (e : Explanation) → AreKnown image cores entries → IsExplained image cores entries e
        → e.kind ≢ Unexplained }
{}
