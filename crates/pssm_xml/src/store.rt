//! Where elements are kept while they are read: their names, values and texts in one list of bytes.
ghost use Rattle.std.specs.Prelude.{◌≡◌, ◌<◌, ◌≤◌, ◌∷◌, [], ◌++◌, ◌+◌, length, map, IfOk, IfSome};
ghost use Rattle.pssm_xml.specs.inner.Stores.{IsPut, ArePut};
ghost use Rattle.pssm_xml.specs.inner.Cuts.{given_attribute};
ghost use Rattle.pssm_xml.specs.inner.Growth.{new_element, with_text};

use crate::elements::{Node, Pair};
use crate::span::Span;
use crate::tags::Given;
use std::alloc::{AllocError as NoMemory, Global};
use std::marker::Model;

// The elements so far. A clause sees the list of them.
#[derive(Drop)]
pub(crate) struct Store {
    pub(crate) nodes: Vec<Node>,
    pub(crate) pairs: Vec<Pair>,
    pub(crate) bytes: Vec<u8>,
}

impl Model for Store {
    ghost use Rattle.std.specs.Prelude.{List};
    ghost use Rattle.pssm_xml.specs.Documents.{Element};

    ghost Value = { List Element };

    ghost use Rattle.pssm_xml.specs.inner.Stores.{elements_of, AreStored};

    ghost view = { λ s. elements_of s.nodes.items s.pairs.items s.bytes.items };

    ghost invariant = { λ s. AreStored s.nodes.items s.pairs.items s.bytes.items };
}

impl Store {
    // No elements.
    pub(crate) fn new(alloc: Global) -> Store
        ensures { result ≡ [] }
    {
        Store {
            nodes: Vec::new(alloc),
            pairs: Vec::new(alloc),
            bytes: Vec::new(alloc),
        }
    }

    // How many there are.
    pub(crate) fn len(&self) -> u32
        ensures count { result ≡ length self.now }
        ensures few { result ≤ 16777216 }
    {
        self.nodes.len() as u32
    }

    // One element more, which has no text yet.
    pub(crate) fn with_element(
        self,
        at: u32,
        parent: Option<u32>,
        name: &[u8],
        attributes: &[Given<'_>],
    ) -> Result<Store, NoMemory>
        requires room { length self < 16777216 }
        requires early { IfSome parent (λ p. p < length self) }
        ensures { IfOk result (λ more. more ≡ self ++ new_element at parent name.now (map given_attribute attributes.now) ∷ []) }
    {
        let Store {
            nodes,
            pairs,
            bytes,
        } = self;
        let mut nodes = nodes;
        let (named, name) = put(bytes, name)?;
        let from = place(pairs.len())?;
        let (bytes, pairs) = put_pairs(named, pairs, attributes)?;
        let to = place(pairs.len())?;
        nodes.push(Node {
            at,
            parent,
            name,
            attributes: Span { from, to },
            text: Span { from: 0, to: 0 },
            first_child: None,
            next_sibling: None,
        })?;
        Ok(Store {
            nodes,
            pairs,
            bytes,
        })
    }

    // The element with this number has this text.
    pub(crate) fn with_text(self, n: u32, text: &[u8]) -> Result<Store, NoMemory>
        requires { n < length self }
        ensures { IfOk result (λ more. more ≡ with_text self n text.now) }
    {
        let Store {
            nodes,
            pairs,
            bytes,
        } = self;
        let mut nodes = nodes;
        let (bytes, text) = put(bytes, text)?;
        let node = with_span(nodes[n as usize], text);
        nodes[n as usize] = node;
        Ok(Store {
            nodes,
            pairs,
            bytes,
        })
    }
}

// The node with its text there.
fn with_span(node: Node, text: Span) -> Node
    ensures { result ≡ record node { text = text } }
{
    Node { text, ..node }
}

// A place in a list, of which there are as many as 32 bits can name: what is past them is memory that there is not.
fn place(n: usize) -> Result<u32, NoMemory>
    ensures { IfOk result (λ at. at ≡ n) }
{
    match u32::try_from(n) {
        Ok(at) => Ok(at),
        Err(_) => Err(NoMemory),
    }
}

// The bytes with the text behind them, and where it stands.
fn put(bytes: Vec<u8>, text: &[u8]) -> Result<(Vec<u8>, Span), NoMemory>
    ensures { IfOk result (λ r. IsPut bytes.items text.now r.0.items r.1) }
{
    let mut bytes = bytes;
    let from = place(bytes.len())?;
    bytes.extend_from_slice(text)?;
    let to = place(bytes.len())?;
    Ok((bytes, Span { from, to }))
}

// The bytes and the pairs with these attributes behind them.
fn put_pairs(
    bytes: Vec<u8>,
    pairs: Vec<Pair>,
    attributes: &[Given<'_>],
) -> Result<(Vec<u8>, Vec<Pair>), NoMemory>
    ensures { IfOk result (λ r. ArePut bytes.items pairs.items (map given_attribute attributes.now) r.0.items r.1.items) }
{
    let mut bytes = bytes;
    let mut pairs = pairs;
    for attribute in attributes {
        let (named, name) = put(bytes, attribute.name)?;
        let (valued, value) = put(named, attribute.value.as_slice())?;
        pairs.push(Pair { name, value })?;
        bytes = valued;
    }
    Ok((bytes, pairs))
}
