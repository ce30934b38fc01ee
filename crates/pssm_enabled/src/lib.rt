//! What a route is, and which routes an event enables (UML 2.5.1, 14.2.3.8 and 14.2.3.9).
//!
//! A route goes over junctions, forks, joins, entry and exit points, and the guards of all its
//! transitions are true. This crate tells whether a route is one and enabled, seeks a way over
//! junctions and exit points, and makes the route of such a way. It asks for the values of guards
//! and reads configurations. It knows nothing of which routes conflict and which fire together.
//!
//! Some calls seek *within* a region: every transition of a way then ends on a vertex in that
//! region, and on any vertex where no region is named. Whoever knows what else fires or overrides
//! so keeps a route to where it may go (this profile's own choice; UML 2.5.1 asks only for the
//! route).
#![tactic(auto)]

mod descending;
mod few;
mod following;
mod guards;
mod marked;
mod opening;
mod passing;
mod route;
mod seeking;
mod starting;
mod tracing;
mod vertices;

pub use following::follow;
pub use guards::is_true_at;
pub use opening::is_open;
pub use route::{are_all_true, check_route, is_route_over};
pub use seeking::{Search, Step, find_way, search_if, steps_of};
pub use starting::{are_completed_by, is_caused_by};
pub use tracing::route_of_trail;
pub use vertices::{ends_inside, is_join, is_passed_over, starts_alone};
