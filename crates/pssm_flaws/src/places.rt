//! The flaws at their places in the order.
ghost use Rattle.std.specs.Prelude.{◌≡◌, ◌<◌};
ghost use Rattle.pssm_profile.specs.Faults.{place_of, place_of_unread, place_of_owed};

use pssm_profile::{Flaw, Owed, Unread};

// The reason at this place among the reasons why elements are not read.
fn unread_with(place: u8) -> Unread
    requires { place < 11 }
    ensures { place_of_unread result ≡ place }
{
    match place {
        0 => Unread::Root,
        1 => Unread::Href,
        2 => Unread::Submachine,
        3 => Unread::Event,
        4 => Unread::OtherType,
        5 => Unread::Several,
        6 => Unread::Language,
        7 => Unread::DoubleName,
        8 => Unread::LongName,
        9 => Unread::Value,
        _ => Unread::TooMany,
    }
}

// What is lacking, at this place among what elements need.
fn owed_with(place: u8) -> Owed
    requires { place < 6 }
    ensures { place_of_owed result ≡ place }
{
    match place {
        0 => Owed::Type,
        1 => Owed::Source,
        2 => Owed::Target,
        3 => Owed::Event,
        4 => Owed::Signal,
        _ => Owed::Id,
    }
}

// The flaw at this place among those of one element.
pub(crate) fn flaw_with(place: u8) -> Flaw
    requires { place < 18 }
    ensures { place_of result ≡ place }
{
    if place == 0 {
        Flaw::DoubleId
    } else if place < 12 {
        Flaw::Unsupported(unread_with(place - 1))
    } else {
        Flaw::Missing(owed_with(place - 12))
    }
}
