//! What is known of every file.
ghost use Rattle.std.specs.Prelude.{◌≡◌, ◌≤◌, ℕ, List, length};
ghost use Rattle.pssm_model.specs.declared.draft_setting.Draft.{Draft};
ghost use Rattle.pssm_model.specs.DraftSettings.{IsInRange, IsPlainDraft};
ghost use Rattle.pssm_xml.specs.Documents.{Placed, Element, IsDocument};
ghost use Rattle.pssm_profile.specs.declared.fault.XmiFault.{XmiFault};
ghost use Rattle.pssm_numbering.specs.Numbering.{ModelFile};
ghost use Rattle.pssm_drafting.specs.Drafts.{draft_of};
ghost use Rattle.pssm_xmi.specs.Faultless.{StandBehind, IsFaultless};
ghost use Rattle.pssm_xmi.specs.Faults.{ReadsDraft, IsXmiFault};

use pssm_profile::one_flaw_comes;
use pssm_roles::one_role;
use pssm_xml::one_tree;

/// A file has at most one draft and at most one fault, and not both.
pub fn one_answer()
    ensures draft { (bytes : List ℕ) (d e : Draft)
        → ReadsDraft bytes d → ReadsDraft bytes e → d ≡ e }
    ensures apart { (bytes : List ℕ) (d : Draft) (f : XmiFault)
        → ReadsDraft bytes d → IsXmiFault bytes f → ⊥ }
    ensures fault { (bytes : List ℕ) (f g : XmiFault)
        → IsXmiFault bytes f → IsXmiFault bytes g → f ≡ g }
{
    one_tree();
    one_role();
    one_flaw_comes();
}

/// A file has a draft or a fault: it cannot be that it has neither.
pub fn some_answer()
    ensures { (bytes : List ℕ) → length bytes ≤ 16777216
        → ((draft : Draft) → ReadsDraft bytes draft → ⊥)
        → ((fault : XmiFault) → IsXmiFault bytes fault → ⊥) → ⊥ }
{}

/// In a document every element stands behind that in which it stands.
pub fn ordered_document()
    ensures { (pieces : List Placed) (doc : List Element) → IsDocument pieces doc → StandBehind doc }
{}

/// What a file without faults gives: a draft whose places are in range and whose counts keep the limits, and that can
/// be flattened.
pub fn sound_draft()
    ensures range { (file : ModelFile) → IsFaultless file → IsInRange (draft_of file) }
    ensures plain { (file : ModelFile) → IsFaultless file → IsPlainDraft (draft_of file) }
{
    one_role();
}
