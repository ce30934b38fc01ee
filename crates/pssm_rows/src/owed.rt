//! What a run is owed.
ghost use Rattle.std.specs.Prelude.{◌↔◌, IsTrue};
ghost use Rattle.pssm_rows.specs.Owed.{Meets, MeetsText, HasEntries};

/// The text that a run is owed.
#[derive(Drop)]
pub enum Owed {
    /// These bytes.
    Bytes(Vec<u8>),
    /// A journal with so many entries.
    Entries(u32),
    /// What the run before wrote.
    Before,
    /// Anything but what the run before wrote.
    Unlike,
}

/// The answer that a run is owed.
#[derive(Drop)]
pub struct Answer {
    /// The status.
    pub code: u8,
    /// The text.
    pub text: Owed,
}

impl Answer {
    /// Whether it is met by this status and this text, behind a run that wrote `before`.
    pub fn is_met(&self, code: u8, written: &[u8], before: &[u8]) -> bool
        ensures { IsTrue result ↔ Meets self.now code written.now before.now }
    {
        self.code == code && self.text.is_met(written, before)
    }
}

impl Owed {
    // Whether it is met by this text.
    fn is_met(&self, written: &[u8], before: &[u8]) -> bool
        ensures { IsTrue result ↔ MeetsText self.now written.now before.now }
    {
        match self {
            Owed::Bytes(bytes) => written == bytes.as_slice(),
            Owed::Entries(entries) => has_entries(written, *entries),
            Owed::Before => written == before,
            Owed::Unlike => written != before,
        }
    }
}

// Whether a text is the first line of a journal and so many other lines.
fn has_entries(text: &[u8], entries: u32) -> bool
    ensures { IsTrue result ↔ HasEntries text.now entries }
{
    text.iter().filter(|byte| **byte == b'\n').count() == entries as usize + 1
}
