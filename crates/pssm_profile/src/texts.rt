//! The languages and bodies of a behaviour or an expression, and whether it is in a language that is not read.
ghost use Rattle.std.specs.Prelude.{◌≡◌, ◌↔◌, ◌<◌, ◌+◌, ◌++◌, ℕ, List, length, map, codes, IsTrue, None, Some};
ghost use Rattle.pssm_xml.specs.Elements.{children};
ghost use Rattle.pssm_values.specs.Bodies.{HasSeen, behaviour_text};
ghost use Rattle.pssm_profile.specs.Flaws.{texts};
ghost use Rattle.pssm_profile.specs.inner.Children.{named_child};
ghost use Rattle.pssm_profile.specs.inner.Texts.{own_text};

use crate::counting::is_called;
use pssm_values::{BodyChoice, MeantBody};
use pssm_xml::Elements;

// The choice with the child, where it is a language.
#[tactic(auto, using(crate::proofs::TextLaws::one_language, crate::proofs::TextLaws::no_language))]
fn with_language(choice: BodyChoice, elements: &Elements, child: u32) -> BodyChoice
    requires within { child < length elements.now }
    requires room { choice.languages < 4294967295 }
    ensures { (languages : List (List ℕ)) (bodies : ℕ) → HasSeen choice languages bodies
        → HasSeen result (languages ++ map own_text (named_child elements.now (codes "language") child)) bodies }
{
    if is_called(elements, child, b"language") {
        choice.with_language(elements.text(child))
    } else {
        choice
    }
}

// The choice with the child, where it is a body.
#[tactic(auto, using(crate::proofs::TextLaws::one_body, crate::proofs::TextLaws::no_body))]
fn with_body(choice: BodyChoice, elements: &Elements, child: u32) -> BodyChoice
    requires within { child < length elements.now }
    requires room { choice.bodies < 4294967295 }
    ensures { (languages : List (List ℕ)) (bodies : ℕ) → HasSeen choice languages bodies
        → HasSeen result languages (bodies + length (named_child elements.now (codes "body") child)) }
{
    if is_called(elements, child, b"body") {
        choice.with_body()
    } else {
        choice
    }
}

/// What the languages and bodies of the element say (UML 2.5.1, 13.4, OpaqueBehavior, and 8.6, OpaqueExpression).
pub fn choice_of(elements: &Elements, p: u32) -> BodyChoice
    requires { p < length elements.now }
    ensures { HasSeen result (texts elements.now p (codes "language")) (length (texts elements.now p (codes "body"))) }
{
    let mut choice = BodyChoice::new();
    let mut next = elements.first_child(p);
    for turn in 0..elements.len() {
        let Some(child) = next else {
            return choice;
        };
        let more = with_language(choice, elements, child);
        choice = with_body(more, elements, child);
        next = elements.next_sibling(child);
    }
    choice
}

/// Whether the behaviour or expression is in a language that is not read (UML 2.5.1, 13.4, OpaqueBehavior, and 8.6,
/// OpaqueExpression; which languages are read is this profile's choice).
#[tactic(auto, using(crate::proofs::TextLaws::unread_where))]
pub fn says_no_text(elements: &Elements, n: u32) -> bool
    requires { n < length elements.now }
    ensures { IsTrue result ↔ (behaviour_text (texts elements.now n (codes "language"))
        (texts elements.now n (codes "body")) ≡ None) }
{
    matches!(choice_of(elements, n).meant(), MeantBody::Unread)
}
