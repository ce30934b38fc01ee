//! The internal trait by which `==` of this crate's types is known to be exact.
ghost use Rattle.std.specs.Prelude.{◌≡◌, ◌↔◌, true, IsTrue};

use crate::elements::{DraftMachine, Owner, Transition, Vertex};
use crate::ids::{ActId, SignalId, TransId};
use crate::machine::Machine;
use crate::row::Row;
use crate::steps::{Firing, How, Route};
use crate::text::Text;

/// A type whose `==` says whether two values are one and the same.
pub trait Same: Eq {
    /// Whether the two values are equal.
    final fn same(&self, other: &Self) -> bool
        ensures { IsTrue result ↔ (self.now ≡ other.now) }
    {
        self.eq(other)
    }

    // Only equal values compare as equal.
    ghost only_equal: { (a b : Self) → Self.eq a b ≡ true → a ≡ b };
}

impl<T: Same> Same for Row<T> {
    ghost use Rattle.pssm_model.specs.Equal.{row_same};

    ghost only_equal = { row_same T.only_equal };
}

impl Same for Text {
    ghost use Rattle.pssm_model.specs.Equal.{text_same};

    ghost only_equal = { text_same };
}

impl Same for ActId {
    ghost use Rattle.pssm_model.specs.Equal.{act_same};

    ghost only_equal = { act_same };
}

impl Same for SignalId {
    ghost use Rattle.pssm_model.specs.Equal.{signal_same};

    ghost only_equal = { signal_same };
}

impl Same for TransId {
    ghost use Rattle.pssm_model.specs.Equal.{trans_same};

    ghost only_equal = { trans_same };
}

impl Same for Owner {
    ghost use Rattle.pssm_model.specs.Equal.{owner_same};

    ghost only_equal = { owner_same };
}

impl Same for Vertex {
    ghost use Rattle.pssm_model.specs.Equal.{vertex_same};

    ghost only_equal = { vertex_same };
}

impl Same for Transition {
    ghost use Rattle.pssm_model.specs.Equal.{transition_same};

    ghost only_equal = { transition_same };
}

impl Same for DraftMachine {
    ghost use Rattle.pssm_model.specs.Equal.{draft_same};

    ghost only_equal = { draft_same };
}

impl Same for Machine {
    ghost use Rattle.pssm_model.specs.Equal.{draft_same};

    ghost only_equal = { draft_same };
}

impl Same for Route {
    ghost use Rattle.pssm_model.specs.Equal.{route_same};

    ghost only_equal = { route_same };
}

impl Same for Firing {
    ghost use Rattle.pssm_model.specs.Equal.{firing_same};

    ghost only_equal = { firing_same };
}

impl Same for How {
    ghost use Rattle.pssm_model.specs.Equal.{how_same};

    ghost only_equal = { how_same };
}
