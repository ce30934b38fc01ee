//! The characters of a text.
ghost use Rattle.std.specs.Prelude.{◌≡◌};
ghost use Rattle.std.specs.Str.{chars};
ghost use Rattle.pssm_xml.specs.inner.Reading.{good_bytes};

use crate::references::is_xml_character;

// How many bytes the characters have that stand before the first that XML has not.
pub(crate) fn good_len(text: &str) -> usize
    ensures { result ≡ good_bytes (chars text.now) }
{
    let mut len = 0;
    for c in text.chars() {
        if !is_xml_character(c) {
            return len;
        }
        len += c.len_utf8();
    }
    len
}
