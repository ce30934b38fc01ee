//! Laws of all admissible journals, whoever keeps them: functions that do nothing, and whose contracts
//! are the laws.
ghost use Rattle.pssm_semantics.specs.declared.setting.Setting.{Setting};
ghost use Rattle.pssm_semantics.specs.Laws.{CompletionLaw, LawsOfJournals};

/// Every admissible journal of a well-formed setting, of whatever length, can be continued to a complete run, by no
/// more entries than its open steps need at most (UML 2.5.1, 14.2.3.9, run to completion).
pub fn every_journal_completes()
    ensures { (setting : Setting) → CompletionLaw setting }
{}

/// In every admissible journal steps follow finished steps, and each signal that is taken was posted or sent earlier,
/// to this object, and is taken once. In a well-formed setting besides, after every entry each region has at most one
/// active direct vertex, and with it the State that owns the region is active; and no entry makes two States of an
/// object complete (UML 2.5.1, 14.2.3.4, 14.2.3.8 and 14.2.3.9).
pub fn every_journal_keeps()
    ensures { (setting : Setting) → LawsOfJournals setting }
{}
