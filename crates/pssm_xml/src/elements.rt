//! `Elements`: the elements of a text, in the order of their tags.
ghost use Rattle.std.specs.Prelude.{◌≡◌, ◌<◌, ◌≤◌, ℕ, suc, length, map, slice_get, Some, IfSome, MatchOption, All};
ghost use Rattle.std.specs.Option.{option_copied};
ghost use Rattle.pssm_xml.specs.Elements.{HasValue, HasNoValue, BeginsAt, IsNamed, HasText, HasParent, IsParent, IsRoot, IsNextChild};
ghost use Rattle.pssm_xml.specs.inner.Trees.{in_span, LiesIn, IsStoredPair, attribute_of, value_among};

use crate::span::Span;
use std::marker::Model;

// An attribute: the spans of its name and its value.
#[derive(Clone, Copy)]
pub(crate) struct Pair {
    pub(crate) name: Span,
    pub(crate) value: Span,
}

// An element: its name and its text are spans of the bytes, its attributes one of the pairs.
#[derive(Clone, Copy)]
pub(crate) struct Node {
    pub(crate) at: u32,
    pub(crate) parent: Option<u32>,
    pub(crate) name: Span,
    pub(crate) attributes: Span,
    pub(crate) text: Span,
    pub(crate) first_child: Option<u32>,
    pub(crate) next_sibling: Option<u32>,
}

/// The elements of a text. Each is named by its number, from 0, in the order of their tags; a parent comes before its
/// children. A clause sees the list of them. No query takes memory.
#[derive(Drop)]
pub struct Elements {
    pub(crate) nodes: Vec<Node>,
    pub(crate) pairs: Vec<Pair>,
    pub(crate) bytes: Vec<u8>,
}

impl Model for Elements {
    ghost use Rattle.std.specs.Prelude.{List};
    ghost use Rattle.pssm_xml.specs.Documents.{Element};

    ghost Value = { List Element };

    ghost use Rattle.pssm_xml.specs.inner.Trees.{elements_in, IsStored};

    ghost view = { elements_in };

    ghost invariant = { IsStored };
}

impl Elements {
    /// How many elements there are.
    pub fn len(&self) -> u32
        ensures count { result ≡ length self.now }
        ensures few { result ≤ 16777216 }
    {
        self.nodes.len() as u32
    }

    /// The byte of the text at which the element begins.
    pub fn at(&self, n: u32) -> u32
        requires { n < length self.now }
        ensures { BeginsAt self.now n result }
    {
        self.nodes[n as usize].at
    }

    /// The element in which it stands; the root stands in none.
    pub fn parent(&self, n: u32) -> Option<u32>
        requires { n < length self.now }
        ensures parent { HasParent self.now n result }
        ensures before { IfSome result (λ p. p < n) }
    {
        node_at(&self.nodes, n).parent
    }

    /// What it is called.
    pub fn name(&self, n: u32) -> &[u8]
        requires { n < length self.now }
        ensures { IsNamed self.now n result.now }
    {
        part(&self.bytes, node_at(&self.nodes, n).name)
    }

    /// The text that stands directly in it, on both sides of its children, escapes replaced.
    pub fn text(&self, n: u32) -> &[u8]
        requires { n < length self.now }
        ensures { HasText self.now n result.now }
    {
        part(&self.bytes, node_at(&self.nodes, n).text)
    }

    /// The value of its attribute of this name, escapes replaced.
    pub fn value_of(&self, n: u32, name: &[u8]) -> Option<&[u8]>
        requires { n < length self.now }
        ensures { MatchOption result (HasNoValue self.now n name.now) (λ value. HasValue self.now n name.now value.now) }
    {
        let span = node_at(&self.nodes, n).attributes;
        value_in(pairs_in(&self.pairs, span), &self.bytes, name)
    }

    /// Its first child.
    pub fn first_child(&self, n: u32) -> Option<u32>
        requires { n < length self.now }
        ensures { IsNextChild self.now n 0 result }
    {
        node_at(&self.nodes, n).first_child
    }

    /// The next child of its parent; the root has none beside it.
    pub fn next_sibling(&self, n: u32) -> Option<u32>
        requires { n < length self.now }
        ensures next { (p : ℕ) → IsParent self.now p n → IsNextChild self.now p (suc n) result }
        ensures root { IsRoot self.now n → result ≡ None }
    {
        node_at(&self.nodes, n).next_sibling
    }
}

// The element with this number.
fn node_at(nodes: &[Node], n: u32) -> Node
    requires { n < length nodes.now }
    ensures { slice_get nodes.now n ≡ Some result }
{
    nodes[n as usize]
}

// What this span of the bytes holds.
fn part(bytes: &[u8], span: Span) -> &[u8]
    requires { LiesIn (length bytes.now) span }
    ensures { result.now ≡ in_span bytes.now span }
{
    &bytes[span.from as usize..span.to as usize]
}

// The pairs of this span.
fn pairs_in(pairs: &[Pair], span: Span) -> &[Pair]
    requires { LiesIn (length pairs.now) span }
    ensures { result.now ≡ in_span pairs.now span }
{
    &pairs[span.from as usize..span.to as usize]
}

// The value of the first pair with this name.
fn value_in<'a>(pairs: &[Pair], bytes: &'a [u8], name: &[u8]) -> Option<&'a [u8]>
    requires { All (IsStoredPair (length bytes.now)) pairs.now }
    ensures { option_copied result ≡ value_among name.now (map (attribute_of bytes.now) pairs.now) }
{
    for pair in pairs {
        if part(bytes, pair.name) == name {
            return Some(part(bytes, pair.value));
        }
    }
    None
}
