//! The lines before the first block, as far as they have been read.
ghost use Rattle.std.specs.Prelude.{◌≡◌, ◌≤◌, ◌<◌, length, IfOk};
ghost use Rattle.pssm_flat.specs.inner.Outlines.{kept as kept_if, no_head as empty_head, with_signal_line, with_class_line, with_object_line, with_head_line, IsSmallHead};

use crate::declared::Declared;
use crate::line::Line;
use pssm_model::Text;
use pssm_semantics::{ObjectDecl, SignalDecl};
use std::alloc::{AllocError, Global};

/// How many signals, classes and objects a setting may have (this profile's choice).
const SIGNALS_AT_MOST: usize = 256;

const CLASSES_AT_MOST: usize = 64;

const OBJECTS_AT_MOST: usize = 64;

/// The signals, the names of the classes, and the objects, in the order of their lines.
#[derive(Drop)]
pub(crate) struct Head {
    pub signals: Declared<SignalDecl>,
    pub classes: Declared<Text>,
    pub objects: Declared<ObjectDecl>,
}

impl Head {
    /// A head without lines.
    pub fn new(alloc: Global) -> Head
        ensures { result ≡ empty_head }
    {
        Head {
            signals: Declared::new(alloc),
            classes: Declared::new(alloc),
            objects: Declared::new(alloc),
        }
    }

    // Puts one more signal, where its line may stand here.
    #[tactic(auto, unfolding(crate::specs::inner::Outlines::with_signal_line))]
    fn add_signal(&mut self, alloc: Global, name: Text, count: u8) -> Result<bool, AllocError>
        ensures { IfOk result (λ taken. kept_if taken self.new ≡ with_signal_line self.old name count) }
    {
        if !self.classes.as_slice().is_empty()
            || !self.objects.as_slice().is_empty()
            || self.signals.as_slice().len() >= SIGNALS_AT_MOST
            || self.signals.has(name.as_slice())
        {
            return Ok(false);
        }
        self.signals.push(alloc, SignalDecl { name, count })?;
        Ok(true)
    }

    // Puts one more class, where its line may stand here.
    #[tactic(auto, unfolding(crate::specs::inner::Outlines::with_class_line))]
    fn add_class(&mut self, alloc: Global, name: Text) -> Result<bool, AllocError>
        ensures { IfOk result (λ taken. kept_if taken self.new ≡ with_class_line self.old name) }
    {
        if !self.objects.as_slice().is_empty()
            || self.classes.as_slice().len() >= CLASSES_AT_MOST
            || self.classes.has(name.as_slice())
        {
            return Ok(false);
        }
        self.classes.push(alloc, name)?;
        Ok(true)
    }

    // Puts one more object, where its line may stand here.
    #[tactic(auto, unfolding(crate::specs::inner::Outlines::with_object_line))]
    fn add_object(&mut self, alloc: Global, name: Text, class: &[u8]) -> Result<bool, AllocError>
        requires { length self.old.classes ≤ 64 }
        ensures { IfOk result (λ taken. kept_if taken self.new ≡ with_object_line self.old name class.now) }
    {
        if self.objects.as_slice().len() >= OBJECTS_AT_MOST || self.objects.has(name.as_slice()) {
            return Ok(false);
        }
        let Some(number) = self.classes.place(class) else {
            return Ok(false);
        };
        let class = number as u8;
        self.objects.push(alloc, ObjectDecl { name, class })?;
        Ok(true)
    }

    /// Takes one more line before the first block. False where it cannot stand here.
    pub fn take(&mut self, alloc: Global, line: Line) -> Result<bool, AllocError>
        requires { IsSmallHead self.old }
        ensures { IfOk result (λ taken. kept_if taken self.new ≡ with_head_line self.old line) }
    {
        match line {
            Line::Signal { name, count } => self.add_signal(alloc, name, count),
            Line::Class { name } => self.add_class(alloc, name),
            Line::Object { name, class } => self.add_object(alloc, name, class.as_slice()),
            other => {
                drop(other);
                Ok(false)
            }
        }
    }
}
