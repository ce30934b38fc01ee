//! Which body of a behaviour is meant.
ghost use Rattle.std.specs.Prelude.{◌≡◌, ◌<◌, ℕ, suc, List, [], ◌∷◌, ◌++◌, length};
ghost use Rattle.pssm_values.specs.Bodies.{is_language, HasSeen, behaviour_text, meant_body, meant_text};
ghost use Rattle.pssm_values.specs.inner.Noted.{noted};

/// Whether the language is `pssm`, in any case of its letters; blanks are not dropped (this profile's choice).
#[tactic(auto, using(crate::proofs::BodyLaws::same_letters))]
pub fn is_pssm(language: &[u8]) -> bool
    ensures { result ≡ is_language language.now }
{
    language.eq_ignore_ascii_case(b"pssm".as_slice())
}

// The place that was noted earlier, or this one where it passes.
fn first_place(earlier: Option<u32>, place: u32, passes: bool) -> Option<u32>
    ensures { result ≡ noted earlier place passes }
{
    match earlier {
        Some(place) => Some(place),
        None if passes => Some(place),
        None => None,
    }
}

/// The body that is meant: none, so that the text is empty; the one at this place, from 0, among the bodies; or one in
/// a language that is not read.
#[derive(Clone, Copy, PartialEq, Eq)]
pub enum MeantBody {
    Nothing,
    At(u32),
    Unread,
}

/// What the languages and bodies of a behaviour say that were seen so far: how many there are of each, and the place of
/// the first language that is `pssm`. It is fed with the children in document order, whichever come first.
#[derive(Clone, Copy, PartialEq, Eq)]
pub struct BodyChoice {
    pub languages: u32,
    pub pssm: Option<u32>,
    pub bodies: u32,
}

impl BodyChoice {
    /// Nothing was seen.
    pub fn new() -> BodyChoice
        ensures { HasSeen result [] 0 }
    {
        BodyChoice {
            languages: 0,
            pssm: None,
            bodies: 0,
        }
    }

    /// One more language was seen.
    pub fn with_language(self, language: &[u8]) -> BodyChoice
        requires room { self.languages < 4294967295 }
        ensures { (languages : List (List ℕ)) (bodies : ℕ) → HasSeen self languages bodies
            → HasSeen result (languages ++ language.now ∷ []) bodies }
    {
        BodyChoice {
            languages: self.languages + 1,
            pssm: first_place(self.pssm, self.languages, is_pssm(language)),
            bodies: self.bodies,
        }
    }

    /// One more body was seen.
    pub fn with_body(self) -> BodyChoice
        requires room { self.bodies < 4294967295 }
        ensures { (languages : List (List ℕ)) (bodies : ℕ) → HasSeen self languages bodies
            → HasSeen result languages (suc bodies) }
    {
        BodyChoice {
            languages: self.languages,
            pssm: self.pssm,
            bodies: self.bodies + 1,
        }
    }

    /// The body that is meant, now that all were seen: the one at the place of the first language that is `pssm`, the
    /// only one where there are no languages; without a body the text is empty (UML 2.5.1, 13.4, OpaqueBehavior, and
    /// 8.6, OpaqueExpression: languages and bodies belong together by their places; the rest is this profile's choice).
    pub fn meant(self) -> MeantBody
        ensures place { (languages : List (List ℕ)) (bodies : ℕ) → HasSeen self languages bodies
            → result ≡ meant_body languages bodies }
        ensures text { (languages bodies : List (List ℕ)) → HasSeen self languages (length bodies)
            → meant_text result bodies ≡ behaviour_text languages bodies }
    {
        if self.bodies == 0 {
            return MeantBody::Nothing;
        }
        match self.pssm {
            Some(place) if place < self.bodies => MeantBody::At(place),
            Some(_) => MeantBody::Unread,
            None if self.languages == 0 && self.bodies == 1 => MeantBody::At(0),
            None => MeantBody::Unread,
        }
    }
}
