//! What an object keeps.
use crate::queue::Queue;
use pssm_config::Config;
use pssm_plan::Plan;
use pssm_semantics::{Args, ObjectId};

/// Where an object stands, by which its calls go.
#[derive(Drop)]
pub struct Situation {
    /// Which object it is.
    pub own: ObjectId,
    /// What is active, remembered and left empty.
    pub config: Config,
    /// The plan of the last step; there is none before the start.
    pub plan: Option<Plan>,
    /// The values of the variables, in their order.
    pub store: Vec<i64>,
    /// The parameters of the last step, eight numbers.
    pub params: Args,
    /// The completion queue.
    pub queue: Queue,
    /// Whether it has ended.
    pub ended: bool,
    /// A number below which all vertices with do steps are.
    pub doers: u16,
}
