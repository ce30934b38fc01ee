//! A law of the flaws of a file.
ghost use Rattle.std.specs.Prelude.{◌≡◌, ℕ, List};
ghost use Rattle.pssm_xml.specs.Documents.{Element};
ghost use Rattle.pssm_profile.specs.declared.flaw.Flaw.{Flaw};
ghost use Rattle.pssm_profile.specs.Faults.{IsFirstFlaw, place_of};

/// One flaw comes at most: two that come stand at one element, and at one place of the order (this profile's choice of
/// the order).
pub fn one_flaw_comes()
    ensures { (doc : List Element) (n m : ℕ) (one other : Flaw) → IsFirstFlaw doc n one → IsFirstFlaw doc m other
        → (n ≡ m) × (place_of one ≡ place_of other) }
{}
