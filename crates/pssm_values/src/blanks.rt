//! Blanks.
ghost use Rattle.std.specs.Prelude.{◌≡◌, ◌≤◌, not, length, drop};
ghost use Rattle.std.specs.List.{prefix_len, list_all};
ghost use Rattle.pssm_values.specs.Blanks.{is_blank};

// Whether this is a blank.
pub(crate) fn is_blank_byte(c: u8) -> bool
    ensures { result ≡ is_blank c }
{
    matches!(c, b' ' | b'\t' | b'\r' | b'\n')
}

// Whether these are blanks.
pub(crate) fn are_blanks(bytes: &[u8]) -> bool
    ensures { result ≡ list_all is_blank bytes.now }
{
    bytes.iter().all(|c| is_blank_byte(*c))
}

// How many blanks the text begins with.
fn blanks_len(bytes: &[u8]) -> usize
    ensures len { result ≡ prefix_len is_blank bytes.now }
    ensures within { result ≤ length bytes.now }
{
    bytes.iter().take_while(|c| is_blank_byte(**c)).count()
}

// How many bytes stand before the first blank.
pub(crate) fn word_len(bytes: &[u8]) -> usize
    ensures len { result ≡ prefix_len (λ c. not (is_blank c)) bytes.now }
    ensures within { result ≤ length bytes.now }
{
    bytes.iter().take_while(|c| !is_blank_byte(**c)).count()
}

// What follows the blanks with which the text begins.
pub(crate) fn behind_blanks(bytes: &[u8]) -> &[u8]
    ensures { result.now ≡ drop (prefix_len is_blank bytes.now) bytes.now }
{
    let (_blanks, rest) = bytes.split_at(blanks_len(bytes));
    rest
}
