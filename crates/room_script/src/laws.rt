//! Laws of texts: each is the contract of a function that does nothing.
ghost use Rattle.std.specs.Prelude.{◌≡◌, ◌⊎◌, ℕ, List};
ghost use Rattle.room_script.specs.Breaks.{BreaksAt};
ghost use Rattle.room_script.specs.Schedules.{Plan, Spells, IsSchedule};
ghost use Rattle.room_script.specs.Trials.{Outline, SpellsTrial, IsTrial};

/// The lines of each text are those of exactly one schedule, or else exactly one line is the first
/// that breaks the rules.
pub fn each_text_is_judged()
    ensures either { (lines : List (List ℕ))
        → IsSchedule lines ⊎ ((k : ℕ) × BreaksAt IsSchedule lines k) }
    ensures never_both { (lines : List (List ℕ)) (k : ℕ)
        → IsSchedule lines → ¬ BreaksAt IsSchedule lines k }
    ensures one_schedule { (lines : List (List ℕ)) (p q : Plan)
        → Spells lines p → Spells lines q → p ≡ q }
    ensures one_line { (lines : List (List ℕ)) (j k : ℕ)
        → BreaksAt IsSchedule lines j → BreaksAt IsSchedule lines k → j ≡ k }
{}

/// The lines of each text are those of exactly one trial, or else exactly one line is the first that
/// breaks the rules.
pub fn each_trial_is_judged()
    ensures either { (lines : List (List ℕ))
        → IsTrial lines ⊎ ((k : ℕ) × BreaksAt IsTrial lines k) }
    ensures never_both { (lines : List (List ℕ)) (k : ℕ)
        → IsTrial lines → ¬ BreaksAt IsTrial lines k }
    ensures one_trial { (lines : List (List ℕ)) (o p : Outline)
        → SpellsTrial lines o → SpellsTrial lines p → o ≡ p }
    ensures one_line { (lines : List (List ℕ)) (j k : ℕ)
        → BreaksAt IsTrial lines j → BreaksAt IsTrial lines k → j ≡ k }
{}
