//! What is known of every draft.
ghost use Rattle.std.specs.Prelude.{◌≡◌};
ghost use Rattle.pssm_model.specs.declared.draft_setting.Draft.{Draft};
ghost use Rattle.pssm_model.specs.DraftSettings.{IsInRange};
ghost use Rattle.pssm_semantics.specs.declared.setting.Setting.{Setting};
ghost use Rattle.pssm_settings.specs.declared.fault.DraftFault.{DraftFault};
ghost use Rattle.pssm_settings.specs.Settings.{IsSettingOf};
ghost use Rattle.pssm_settings.specs.Failures.{IsFirstFailure};

use pssm_redefine::some_flat;

/// A draft has at most one setting and at most one fault, and not both.
pub fn one_setting()
    ensures setting { (draft : Draft) (a b : Setting)
        → IsSettingOf draft a → IsSettingOf draft b → a ≡ b }
    ensures apart { (draft : Draft) (setting : Setting) (fault : DraftFault)
        → IsSettingOf draft setting → IsFirstFailure draft fault → ⊥ }
    ensures fault { (draft : Draft) (f g : DraftFault)
        → IsFirstFailure draft f → IsFirstFailure draft g → f ≡ g }
{}

/// A draft in range has a setting, or a first class that fails: it cannot be that it has neither.
pub fn some_setting()
    ensures { (draft : Draft) → IsInRange draft
        → ((setting : Setting) → IsSettingOf draft setting → ⊥)
        → ((fault : DraftFault) → IsFirstFailure draft fault → ⊥) → ⊥ }
{
    some_flat();
}
