//! Laws of sums and distances, over the definitions alone: the functions do nothing, and their contracts are the laws.

ghost use Rattle.std.specs.Prelude.{◌≡◌, ◌+◌, ◌≤◌, ℕ, List, None, sum_by};
ghost use Rattle.rv32_image.specs.Image.{LoadedImage};
ghost use Rattle.spec_history.specs.declared.entry.Entry.{Entry};
ghost use Rattle.spec_history.specs.declared.entry.What.TheVariants.{Hurt};
ghost use Rattle.spec_history.specs.FlatState.{FlatState};
ghost use Rattle.spec_history.specs.Refusal.{refusal_of};
ghost use Rattle.conflicts.specs.declared.explanation.Explanation.{Explanation};
ghost use Rattle.conflicts.specs.Explained.{IsExplainedIn};
ghost use Rattle.spec_history.specs.declared.kind.Kind.TheVariants.{TrueSharing, SilentStore, FalseSharing, FullBuffer, Unexplained};
ghost use Rattle.conflict_findings.specs.declared.part.Part.TheVariants.{Whole, OfKind, OfPair, Unpaired};
ghost use Rattle.conflict_findings.specs.declared.rollback.Pair.{Pair};
ghost use Rattle.conflict_findings.specs.declared.rollback.Rollback.{Rollback};
ghost use Rattle.conflict_findings.specs.Pairs.{pairs_in};
ghost use Rattle.conflict_findings.specs.Findings.{distance_of};
ghost use Rattle.conflict_findings.specs.Sums.{count_in, lost_in};

/// The violations of the five kinds are all, and so is what they lost.
pub fn kinds_make_up_all()
    ensures count { (rs : List Rollback) → count_in Whole rs ≡ count_in (OfKind TrueSharing) rs + count_in (OfKind SilentStore) rs
        + count_in (OfKind FalseSharing) rs + count_in (OfKind FullBuffer) rs + count_in (OfKind Unexplained) rs }
    ensures lost { (rs : List Rollback) → lost_in Whole rs ≡ lost_in (OfKind TrueSharing) rs + lost_in (OfKind SilentStore) rs
        + lost_in (OfKind FalseSharing) rs + lost_in (OfKind FullBuffer) rs + lost_in (OfKind Unexplained) rs }
{}

/// The violations of the pairs, and those without one, are all, and so is what they lost.
pub fn pairs_make_up_all()
    ensures count { (rs : List Rollback) → count_in Whole rs ≡ sum_by (λ (p : Pair). count_in (OfPair p) rs) (pairs_in rs) + count_in Unpaired rs }
    ensures lost { (rs : List Rollback) → lost_in Whole rs ≡ sum_by (λ (p : Pair). lost_in (OfPair p) rs) (pairs_in rs) + lost_in Unpaired rs }
{}

/// Where a violation is not refused, the victim's epoch comes after the causer's, by the distance.
pub fn violated_epochs_come_after()
    ensures apart { (image : LoadedImage) (cores : ℕ) (s : FlatState) (entries : List Entry) (e : Explanation) → IsExplainedIn image s entries e
        → refusal_of image cores s (record { by = e.causer.core; what = Hurt e.victim.epoch }) ≡ None → 1 ≤ distance_of e.victim e.causer }
    ensures sum { (image : LoadedImage) (cores : ℕ) (s : FlatState) (entries : List Entry) (e : Explanation) → IsExplainedIn image s entries e
        → refusal_of image cores s (record { by = e.causer.core; what = Hurt e.victim.epoch }) ≡ None → e.causer.epoch + distance_of e.victim e.causer ≡ e.victim.epoch }
{}
