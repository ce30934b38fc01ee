//! `Shift`: several workers at one run.
use crate::floor::Floor;
use crate::scene::Scene;
use crate::seat::Seat;
use crate::working::sit;
use pssm_base::Gate;
use std::alloc::Global;
use std::sync::ledger::Ledger;
use std::sync::{Mutex, Wait};

/// What each of several threads does, by its number from 0.
pub trait Crew {
    /// Does the work of one, and tells the gate of each behaviour before it.
    fn work<R: Wait, G: Gate>(&self, rt: &R, gate: &G, number: usize);
}

/// Several workers at one run: what they share, and a seat for each.
pub struct Shift<L: Ledger, V: Scene> {
    pub alloc: Global,
    pub floor: Floor<L, V>,
    pub seats: Vec<Mutex<Seat<L>>>,
    pub seed: u64,
}

impl<L: Ledger, V: Scene> Crew for Shift<L, V> {
    fn work<R: Wait, G: Gate>(&self, rt: &R, gate: &G, number: usize) {
        if let Some(seat) = self.seats.as_slice().get(number) {
            sit(
                rt,
                self.alloc,
                &self.floor,
                gate,
                seat,
                self.seed,
                number as u64,
            );
        }
    }
}
