//! The links between elements: from each to its first child, and to the next child of its parent.
ghost use Rattle.std.specs.Prelude.{◌≡◌, ◌<◌, ◌≤◌, ℕ, length, slice_get, Some, IfSome};
ghost use Rattle.pssm_xml.specs.declared.elements.Node.{Node};
ghost use Rattle.pssm_xml.specs.inner.Links.{IsStart, LinksParent, AreLinked};

use crate::elements::{Elements, Node};
use crate::store::Store;

// The nodes with a link to the one with this number, which is the first child so far of the element that it stands in.
fn with_link(nodes: Vec<Node>, n: usize) -> Vec<Node>
    requires within { n < length nodes.items }
    requires few { length nodes.items ≤ 16777216 }
    requires early { (node : Node) → slice_get nodes.items n ≡ Some node → IfSome node.parent (λ p. p < n) }
    ensures { (node : Node) → slice_get nodes.items n ≡ Some node → LinksParent nodes.items n node node.parent result.items }
{
    let node = nodes[n];
    match node.parent {
        None => nodes,
        Some(p) => {
            let mut nodes = nodes;
            let above = nodes[p as usize];
            nodes[n] = before_sibling(node, above.first_child);
            nodes[p as usize] = above_child(above, n as u32);
            nodes
        }
    }
}

// The node with this one behind it.
fn before_sibling(node: Node, sibling: Option<u32>) -> Node
    ensures { result ≡ record node { next_sibling = sibling } }
{
    Node {
        next_sibling: sibling,
        ..node
    }
}

// The node with this first child.
fn above_child(node: Node, child: u32) -> Node
    ensures { result ≡ record node { first_child = Some child } }
{
    Node {
        first_child: Some(child),
        ..node
    }
}

// The nodes with all links between them.
pub(crate) fn with_links(nodes: Vec<Node>) -> Vec<Node>
    requires few { length nodes.items ≤ 16777216 }
    requires start { IsStart nodes.items }
    ensures { AreLinked nodes.items result.items }
{
    let mut nodes = nodes;
    let mut n = nodes.len();
    'down: while n > 0 {
        n -= 1;
        let linked = with_link(nodes, n);
        nodes = linked;
    }
    nodes
}

impl Store {
    // The elements that are stored, with the links between them.
    pub(crate) fn linked(self) -> Elements
        ensures { result ≡ self }
    {
        let Store {
            nodes,
            pairs,
            bytes,
        } = self;
        let nodes = with_links(nodes);
        Elements {
            nodes,
            pairs,
            bytes,
        }
    }
}
