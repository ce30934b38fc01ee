//! `Fault`: a rule of models that is broken at a place.
use pssm_model::FaultPlace;

/// A place breaks a rule of models; `rule` is the rule's number, from 1 to 21.
#[derive(Clone, Copy, PartialEq, Eq)]
pub struct Fault {
    pub element: FaultPlace,
    pub rule: u8,
}
