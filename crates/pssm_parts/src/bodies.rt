//! The languages and bodies of a behaviour or an expression.
ghost use Rattle.std.specs.Prelude.{◌≡◌, ◌<◌, length, map, codes, slice_get, if◌then◌else◌};
ghost use Rattle.std.specs.Option.{option_copied};
ghost use Rattle.pssm_xml.specs.Elements.{children};
ghost use Rattle.pssm_values.specs.Bodies.{HasSeen};
ghost use Rattle.pssm_profile.specs.inner.Texts.{own_text};
ghost use Rattle.pssm_parts.specs.Texts.{texts};

use pssm_numbering::File;
use pssm_profile::is_called;
use pssm_values::BodyChoice;
use pssm_xml::Elements;

/// What the languages and bodies of the element say.
pub fn choice_of(file: &File, n: u32) -> BodyChoice
    requires { n < length file.now.doc }
    ensures { HasSeen result (texts (codes "language") file.now n) (length (texts (codes "body") file.now n)) }
{
    pssm_profile::choice_of(file.elements(), n)
}

// One where it is so, and otherwise none.
fn one_if(so: bool) -> u32
    ensures { result ≡ (if so then 1 else 0) }
{
    if so { 1 } else { 0 }
}

// The text of the body child at this place, from 0.
fn body_in(elements: &Elements, p: u32, place: u32) -> Option<&[u8]>
    requires { p < length elements.now }
    ensures { option_copied result ≡ slice_get (map own_text (children elements.now p (codes "body"))) place }
{
    let mut seen = 0u32;
    let mut next = elements.first_child(p);
    'children: while let Some(child) = next {
        let called = is_called(elements, child, b"body");
        if called && seen == place {
            return Some(elements.text(child));
        }
        seen += one_if(called);
        next = elements.next_sibling(child);
    }
    None
}

/// The text of the body of the element at this place among its bodies, from 0, where there is one.
pub fn body_at(file: &File, n: u32, place: u32) -> Option<&[u8]>
    requires { n < length file.now.doc }
    ensures { option_copied result ≡ slice_get (texts (codes "body") file.now n) place }
{
    body_in(file.elements(), n, place)
}
