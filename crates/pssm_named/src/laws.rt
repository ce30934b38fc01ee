//! What is known of the names of every draft.
ghost use Rattle.pssm_roles.specs.Roles.{AreRolesOf};
ghost use Rattle.pssm_profile.specs.Faults.{HasNoProfileFault};
ghost use Rattle.pssm_numbering.specs.Numbering.{ModelFile};
ghost use Rattle.pssm_drafting.specs.Drafts.{draft_of};
ghost use Rattle.pssm_settings.specs.Names.{HasNames};

/// In a file without faults the signals, classes and objects have distinct names, and the variables
/// have names.
pub fn named_draft()
    ensures { (file : ModelFile) → AreRolesOf file.doc file.roles → HasNoProfileFault file.doc
        → HasNames (draft_of file) }
{}
