//! A law of the first fault.
ghost use Rattle.std.specs.Prelude.{◌≡◌};
ghost use Rattle.pssm_numbering.specs.Numbering.{ModelFile};
ghost use Rattle.pssm_unmet.specs.declared.unmet.Unmet.{Unmet};
ghost use Rattle.pssm_unmet.specs.Unmet.{IsFirstUnmet};

/// One fault is the first of a file, and no other.
pub fn one_is_first()
    ensures { (file : ModelFile) (one other : Unmet)
        → IsFirstUnmet file one → IsFirstUnmet file other → one ≡ other }
{}
