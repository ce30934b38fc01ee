//! What is known of every text.
ghost use Rattle.std.specs.Prelude.{◌≡◌, ℕ, List};
ghost use Rattle.pssm_xml.specs.declared.fault.TextFault.{TextFault};
ghost use Rattle.pssm_xml.specs.Documents.{Element};
ghost use Rattle.pssm_xml.specs.TextFaults.{HasElements};
ghost use Rattle.pssm_xml.specs.Faults.{IsTextFault};

/// A text has at most one list of elements and at most one fault, and not both.
pub fn one_tree()
    ensures tree { (bytes : List ℕ) (d e : List Element) → HasElements bytes d → HasElements bytes e → d ≡ e }
    ensures apart { (bytes : List ℕ) (d : List Element) (f : TextFault) → HasElements bytes d → IsTextFault bytes f → ⊥ }
    ensures fault { (bytes : List ℕ) (f g : TextFault) → IsTextFault bytes f → IsTextFault bytes g → f ≡ g }
{}

/// A text has a list of elements or a fault: it cannot be that it has neither.
pub fn some_tree()
    ensures { (bytes : List ℕ) → ((elements : List Element) → HasElements bytes elements → ⊥)
        → ((fault : TextFault) → IsTextFault bytes fault → ⊥) → ⊥ }
{}
