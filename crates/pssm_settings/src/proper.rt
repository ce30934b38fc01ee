//! What is known of the setting of every draft.
ghost use Rattle.pssm_model.specs.declared.draft_setting.Draft.{Draft};
ghost use Rattle.pssm_model.specs.DraftSettings.{IsInRange};
ghost use Rattle.pssm_semantics.specs.declared.setting.Setting.{Setting};
ghost use Rattle.pssm_semantics.specs.Names.{HasSpelledNames};
ghost use Rattle.pssm_semantics.specs.Proper.{IsProper};
ghost use Rattle.pssm_settings.specs.Names.{HasNames};
ghost use Rattle.pssm_settings.specs.Settings.{IsSettingOf};

/// The setting of a draft in range that has names is proper, and the names of its objects, signals
/// and marks are names.
pub fn proper_setting()
    ensures proper { (draft : Draft) (setting : Setting)
        → IsInRange draft → HasNames draft → IsSettingOf draft setting → IsProper setting }
    ensures spelled { (draft : Draft) (setting : Setting)
        → IsInRange draft → HasNames draft → IsSettingOf draft setting → HasSpelledNames setting }
{}
