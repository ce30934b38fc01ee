//! What is known of each setting that is read.
ghost use Rattle.pssm_semantics.specs.declared.setting.Setting.{Setting};
ghost use Rattle.pssm_semantics.specs.Names.{HasSpelledNames};
ghost use Rattle.pssm_semantics.specs.Proper.{IsProper};
ghost use Rattle.pssm_flat.specs.Flat.{IsFlat};

/// A setting that has a flat text is proper, and the names of its objects, signals and marks are names.
pub fn read_settings()
    ensures proper { (s : Setting) → IsFlat s → IsProper s }
    ensures spelled { (s : Setting) → IsFlat s → HasSpelledNames s }
{}
