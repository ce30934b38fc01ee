//! Laws of lines: one spelling for a line, and one fault for a text.
ghost use Rattle.std.specs.Prelude.{◌≡◌, ◌⊎◌, ℕ, List};
ghost use Rattle.std.specs.List.{AllByRecursion};
ghost use Rattle.pssm_semantics.specs.declared.line.Line.{Line};
ghost use Rattle.pssm_lines.specs.declared.fault.LineFault.{LineFault};
ghost use Rattle.pssm_lines.specs.LineText.{line_text, journal_text};
ghost use Rattle.pssm_lines.specs.Grammar.{IsLine};
ghost use Rattle.pssm_lines.specs.Faults.{IsJournalLine, HasFault};

/// Two lines of the grammar with one text are one line.
pub fn one_spelling()
    ensures { (l m : Line) → IsLine l → IsLine m → line_text l ≡ line_text m → l ≡ m }
{}

/// A text has one fault at most, and the lines before it are the same; a text of lines of a journal has none, and
/// is the text of no other lines.
pub fn one_fault()
    ensures lines { (text : List ℕ) (lines others : List Line) (fault other : LineFault)
        → HasFault text lines fault → HasFault text others other → lines ≡ others }
    ensures fault { (text : List ℕ) (lines others : List Line) (fault other : LineFault)
        → HasFault text lines fault → HasFault text others other → fault ≡ other }
    ensures none { (lines others : List Line) (fault : LineFault)
        → AllByRecursion IsJournalLine lines → HasFault (journal_text lines) others fault → ⊥ }
    ensures same { (lines others : List Line)
        → AllByRecursion IsJournalLine lines → AllByRecursion IsJournalLine others
        → journal_text lines ≡ journal_text others → lines ≡ others }
{}

/// Each text is that of lines of a journal, or has a fault.
pub fn text_or_fault()
    ensures { (text : List ℕ)
        → ((lines : List Line) × AllByRecursion IsJournalLine lines × (text ≡ journal_text lines))
        ⊎ ((lines : List Line) × (fault : LineFault) × HasFault text lines fault) }
{}
