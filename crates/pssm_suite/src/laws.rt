//! What is known of each generated model.
ghost use Rattle.std.specs.Prelude.{◌≡◌, ◌≤◌, ℕ, List, [], length};
ghost use Rattle.std.specs.List.{AllByRecursion};
ghost use Rattle.pssm_semantics.specs.declared.entry.Entry.{Entry};
ghost use Rattle.pssm_semantics.specs.Admissible.{IsFull};
ghost use Rattle.pssm_semantics.specs.Known.{IsStimulusOf};
ghost use Rattle.pssm_semantics.specs.Proper.{IsWellFormed};
ghost use Rattle.pssm_flat.specs.Text.{flat_text};
ghost use Rattle.pssm_load.specs.Loads.{ReadsSetting};
ghost use Rattle.pssm_suite.specs.Counts.{IsGeneratedRun, IsGeneratedEnd, HasFewEntries, HasAllEntries};
ghost use Rattle.pssm_suite.specs.Generated.{generated_text, generated_stimuli};
ghost use Rattle.pssm_suite.specs.GeneratedSetting.{generated_setting};

/// The text of the generated model is the flat text of the generated setting, and is read as it; it
/// has no more bytes than a model may have.
pub fn generated_texts()
    ensures text { (n : ℕ) → flat_text (generated_setting n) ≡ generated_text n }
    ensures read { (n : ℕ) → 1 ≤ n → n ≤ 4000 → ReadsSetting (generated_text n) (generated_setting n) [] }
    ensures small { (n : ℕ) → n ≤ 4000 → length (generated_text n) ≤ 16777216 }
{}

/// The generated setting is well formed, and its stimuli name what it has.
pub fn generated_settings()
    ensures well_formed { (n : ℕ) → 1 ≤ n → n ≤ 4000 → IsWellFormed (generated_setting n) }
    ensures stimuli { (n : ℕ) → AllByRecursion (IsStimulusOf (generated_setting n)) (generated_stimuli n) }
{}

/// However a run of the generated model goes, it has few entries and takes, and never fills a journal of a million
/// entries.
pub fn generated_runs()
    ensures few { (n : ℕ) → 1 ≤ n → n ≤ 4000 → (J : List Entry) → IsGeneratedRun n J → HasFewEntries n J }
    ensures never_full { (n : ℕ) → 1 ≤ n → n ≤ 4000 → (J : List Entry) → IsGeneratedRun n J → IsFull 1000000 J → ⊥ }
{}

/// Where it has come to its end, it has all of them, whichever way it went.
pub fn generated_ends()
    ensures { (n : ℕ) → 1 ≤ n → n ≤ 4000 → (J : List Entry) → IsGeneratedEnd n J → HasAllEntries n J }
{}
