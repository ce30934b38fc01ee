//! What is known of every class whose bodies were read.
ghost use Rattle.std.specs.Prelude.{map};
ghost use Rattle.std.specs.List.{AllByRecursion};
ghost use Rattle.pssm_model.specs.Shapes.{HasShape};
ghost use Rattle.pssm_model.specs.declared.elements.DraftMachine.{DraftMachine};
ghost use Rattle.pssm_model.specs.declared.draft_setting.FlatDraft.{FlatDraft};
ghost use Rattle.pssm_semantics.specs.declared.setting.Class.{Class};
ghost use Rattle.pssm_semantics.specs.declared.setting.Names.{Names};
ghost use Rattle.pssm_semantics.specs.declared.setting.Program.{Program};
ghost use Rattle.pssm_semantics.specs.declared.setting.Setting.{Setting};
ghost use Rattle.pssm_semantics.specs.Proper.{AreNames, CanSend, IsShortName, ProgramFits};
ghost use Rattle.pssm_spelling.specs.Spelling.{IsName};
ghost use Rattle.pssm_bodies.specs.Fitting.{AreNamesFor};
ghost use Rattle.pssm_bodies.specs.Programs.{IsProgrammed};

/// The program of a class whose bodies were read fits the class, its machine has few steps, and its
/// marks are names.
pub fn programs_fit()
    ensures fits { (setting : Setting) (class : Class) (names : Names) (flat : FlatDraft)
        → AreNamesFor setting class names → IsProgrammed names flat class.machine class.program
        → HasShape class.machine → IsShortName class.name → AreNames (map (λ v. v.name) class.vars)
        → ProgramFits class (CanSend setting) }
    ensures marks { (names : Names) (flat : FlatDraft) (machine : DraftMachine) (program : Program)
        → IsProgrammed names flat machine program → AllByRecursion IsName program.marks }
{}
