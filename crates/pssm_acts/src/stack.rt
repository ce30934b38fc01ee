//! `Stack`: items of which the last one put there comes first.
ghost use Rattle.std.specs.Prelude.{◌≡◌, ◌∷◌, [], length, IfOk};
ghost use Rattle.pssm_acts.specs.inner.Stacks.{split_top};

use std::alloc::{AllocError as NoMemory, Global};
use std::marker::Model;

/// Items, seen as a list from the top.
#[derive(Drop)]
pub struct Stack<T> {
    items: Vec<T>,
}

impl<T> Model for Stack<T> {
    ghost use Rattle.std.specs.Prelude.{List, reverse};
    ghost use Rattle.std.specs.Coded.{coded_list};

    ghost Value = { List T };

    ghost coded = { coded_list T.code };

    ghost view = { λ s. reverse s.items.items };
}

impl<T: Drop> Stack<T> {
    /// No items.
    pub fn new(alloc: Global) -> Stack<T>
        ensures { result ≡ [] }
    {
        Stack {
            items: Vec::new(alloc),
        }
    }

    /// How many items there are.
    pub fn len(&self) -> usize
        ensures { result ≡ length self.now }
    {
        self.items.len()
    }

    /// One item more, on top.
    pub fn with(self, item: T) -> Result<Stack<T>, NoMemory>
        ensures { IfOk result (λ stack. stack ≡ item ∷ self) }
    {
        let Stack { mut items } = self;
        items.push(item)?;
        Ok(Stack { items })
    }

    /// The items below the top one, and the top one.
    pub fn split(self) -> Option<(Stack<T>, T)>
        ensures { result ≡ split_top self }
    {
        let Stack { mut items } = self;
        let item = items.pop()?;
        Some((Stack { items }, item))
    }
}
