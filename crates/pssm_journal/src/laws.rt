//! Laws of lines: what is written is read again as what it was.
ghost use Rattle.std.specs.Prelude.{◌≡◌, List};
ghost use Rattle.std.specs.List.{AllByRecursion};
ghost use Rattle.pssm_semantics.specs.declared.entry.Entry.{Entry};
ghost use Rattle.pssm_semantics.specs.declared.line.Line.{Line};
ghost use Rattle.pssm_semantics.specs.declared.setting.Setting.{Setting};
ghost use Rattle.pssm_semantics.specs.Forms.{IsRunEntry};
ghost use Rattle.pssm_semantics.specs.Proper.{IsWellFormed};
ghost use Rattle.pssm_lines.specs.LineText.{line_text, journal_text};
ghost use Rattle.pssm_lines.specs.Grammar.{IsLine};
ghost use Rattle.pssm_lines.specs.Faults.{IsJournalLine};
ghost use Rattle.pssm_journal.specs.Entries.{IsEntryOf, AreEntries};
ghost use Rattle.pssm_journal.specs.Naming.{IsSpelledEntry};
ghost use Rattle.pssm_semantics.specs.Names.{NamesDiffer};

/// What is read of the text of an entry's line writes this entry, and the entries that are read of the text of a
/// journal are those that were written.
pub fn read_again()
    ensures entry { (setting : Setting) (e : Entry) (line read : Line) → IsLine line → IsEntryOf setting line e
        → IsLine read → line_text read ≡ line_text line → IsEntryOf setting read e }
    ensures journal { (setting : Setting) (J K : List Entry) (lines read : List Line)
        → AllByRecursion IsJournalLine lines → AllByRecursion IsJournalLine read → AreEntries setting lines J → AreEntries setting read K
        → journal_text lines ≡ journal_text read → J ≡ K }
{}

/// A well-formed setting has names that differ, and the entries of its runs are within the limits of a line: the line
/// of one is a line that a journal may have.
pub fn run_lines()
    ensures differ { (setting : Setting) → IsWellFormed setting → NamesDiffer setting }
    ensures plain { (e : Entry) → IsRunEntry e → IsSpelledEntry e }
    ensures short { (setting : Setting) (e : Entry) (line : Line) → IsRunEntry e → IsEntryOf setting line e
        → IsLine line → IsJournalLine line }
{}
