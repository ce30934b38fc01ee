//! The words that name what is wrong with a model.
ghost use Rattle.std.specs.Prelude.{◌≡◌};
ghost use Rattle.pssm_tool.specs.FaultWords.{shape_word, act_word, act_place, unread_word};

use pssm_acts::ActFault;
use pssm_model::Shape;
use pssm_profile::Unread;

/// The name of a fault of a machine's shape; none on want of memory.
pub fn shape_name(shape: Shape) -> &'static str
    ensures { result.now ≡ shape_word shape }
{
    match shape {
        Shape::BadOwner(_) => "BadOwner",
        Shape::BadEnd(_) => "BadEnd",
        Shape::TooMany(_) => "TooMany",
        Shape::TooDeep(_) => "TooDeep",
        Shape::NoMemory => "",
    }
}

/// The name of a fault of an action text; none on want of memory.
pub fn act_name(fault: ActFault) -> &'static str
    ensures { result.now ≡ act_word fault }
{
    match fault {
        ActFault::Syntax { .. } => "Syntax",
        ActFault::UnknownName { .. } => "UnknownName",
        ActFault::WideNumber { .. } => "WideNumber",
        ActFault::Arity { .. } => "Arity",
        ActFault::TooLong { .. } => "TooLong",
        ActFault::NoMemory => "",
    }
}

/// The byte of an action text at which its fault stands.
pub fn act_byte(fault: ActFault) -> u32
    ensures { result ≡ act_place fault }
{
    match fault {
        ActFault::Syntax { at }
        | ActFault::UnknownName { at }
        | ActFault::WideNumber { at }
        | ActFault::Arity { at }
        | ActFault::TooLong { at } => at,
        ActFault::NoMemory => 0,
    }
}

/// The name of the reason why an element of a model file is not read.
pub fn unread_name(kind: Unread) -> &'static str
    ensures { result.now ≡ unread_word kind }
{
    match kind {
        Unread::Root => "Root",
        Unread::Href => "Href",
        Unread::Submachine => "Submachine",
        Unread::Event => "Event",
        Unread::OtherType => "OtherType",
        Unread::Several => "Several",
        Unread::Language => "Language",
        Unread::DoubleName => "DoubleName",
        Unread::LongName => "LongName",
        Unread::Value => "Value",
        Unread::TooMany => "TooMany",
    }
}
