//! Ids that the value of an attribute holds.
ghost use Rattle.std.specs.Prelude.{◌≡◌, ◌<◌, ◌∷◌, [], length, MatchOption, IfSome};
ghost use Rattle.pssm_values.specs.Ids.{ids_in};

use crate::blanks::{behind_blanks, word_len};

/// The first id that the value holds, and the rest of the value, which holds the others; none where it holds no id
/// (XMI 2.5.1, 7.10, linking: ids with blanks between them).
pub fn first_id(value: &[u8]) -> Option<(&[u8], &[u8])>
    ensures ids { MatchOption result (ids_in value.now ≡ []) (λ x. ids_in value.now ≡ x.0.now ∷ ids_in x.1.now) }
    ensures shorter { IfSome result (λ x. length x.1.now < length value.now) }
{
    let text = behind_blanks(value);
    let len = word_len(text);
    if len == 0 {
        return None;
    }
    let (id, rest) = text.split_at(len);
    Some((id, rest))
}

/// How many ids the value holds; equal ones are counted each.
pub fn ids_len(value: &[u8]) -> usize
    ensures { result ≡ length (ids_in value.now) }
{
    let mut count = 0;
    let mut rest = value;
    for i in 0..value.len() {
        let Some((_id, others)) = first_id(rest) else {
            return count;
        };
        count += 1;
        rest = others;
    }
    count
}
