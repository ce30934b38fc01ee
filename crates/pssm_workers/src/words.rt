//! The words that settle what happens where several things may.
use rand_core::SeedableRng;
use rand_pcg::Pcg64;

// The words of workers are apart by this; those of the first are the seed's own.
const STRIDE: u64 = 0x9e37_79b9_7f4a_7c15;

/// The words of a worker, by the seed and its number, from 0.
pub fn words_of(seed: u64, number: u64) -> Pcg64 {
    Pcg64::seed_from_u64(seed ^ number.wrapping_mul(STRIDE))
}
