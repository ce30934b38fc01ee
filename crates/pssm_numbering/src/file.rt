//! `File`: the elements of a model file with their ids and roles.
ghost use Rattle.std.specs.Prelude.{◌≡◌, ◌<◌, ◌≤◌, ◌&&◌, ℕ, suc, length, slice_get, false, IfOk, IfSome};
ghost use Rattle.std.specs.Option.{option_copied, option_map_or};
ghost use Rattle.pssm_xml.specs.Elements.{value_or_empty, is_child_of, IsParent, IsNextChild};
ghost use Rattle.pssm_roles.specs.Roles.{AreRolesOf, HasRole};
ghost use Rattle.pssm_numbering.specs.Numbering.{role_at, parent_of, is_number, child_named as named_child, child_with as kind_child};
ghost use Rattle.pssm_numbering.specs.Kinds.{is_of as of_kind};
ghost use Rattle.pssm_numbering.specs.Meanings.{value, id_of, at_of, is_true as says_true};

use crate::kinds::{Kind, is_of};
use pssm_roles::{Ids, Role, roles_of};
use pssm_values::truth;
use pssm_xml::Elements;
use std::alloc::{AllocError as NoMemory, Global};
use std::marker::Model;

/// The elements of a model file, with the element that each id means and the role of each element. A clause sees the
/// elements and the roles.
#[derive(Drop)]
pub struct File {
    elements: Elements,
    ids: Ids,
    roles: Vec<Role>,
}

impl Model for File {
    ghost use Rattle.std.specs.Prelude.{◌≡◌};
    ghost use Rattle.pssm_roles.specs.Roles.{AreRolesOf};
    ghost use Rattle.pssm_numbering.specs.Numbering.{ModelFile, file_of};

    ghost Value = { ModelFile };

    ghost view = { λ f. file_of f.elements f.roles.items };

    ghost invariant = { λ f. (f.ids ≡ f.elements) × AreRolesOf f.elements f.roles.items };
}

impl File {
    /// The file with these elements.
    pub fn of(alloc: Global, elements: Elements) -> Result<Self, NoMemory>
        ensures { IfOk result (λ f. f.doc ≡ elements) }
    {
        let ids = Ids::of(alloc, &elements)?;
        let roles = roles_of(alloc, &elements, &ids)?;
        Ok(File {
            elements,
            ids,
            roles,
        })
    }

    /// Its elements.
    pub fn elements(&self) -> &Elements
        ensures { result.now ≡ self.now.doc }
    {
        &self.elements
    }

    /// The elements that its ids mean.
    pub fn ids(&self) -> &Ids
        ensures { result.now ≡ self.now.doc }
    {
        &self.ids
    }

    /// The roles of its elements.
    pub fn roles(&self) -> &[Role]
        ensures these { result.now ≡ self.now.roles }
        ensures of { AreRolesOf self.now.doc self.now.roles }
    {
        &self.roles
    }

    /// How many elements there are.
    pub fn len(&self) -> u32
        ensures count { result ≡ length self.now.doc }
        ensures few { result ≤ 16777216 }
    {
        self.elements.len()
    }

    /// The role of an element.
    pub fn role(&self, n: u32) -> Role
        requires { n < length self.now.doc }
        ensures at { result ≡ role_at self.now n }
        ensures has { HasRole self.now.doc n result }
    {
        self.roles[n as usize]
    }

    /// The element in which it stands; the root stands in none.
    pub fn parent(&self, n: u32) -> Option<u32>
        requires { n < length self.now.doc }
        ensures parent { result ≡ parent_of self.now n }
        ensures before { IfSome result (λ p. p < n) }
    {
        self.elements.parent(n)
    }

    /// The byte of the text at which the element begins.
    pub fn at(&self, n: u32) -> u32
        requires { n < length self.now.doc }
        ensures { result ≡ at_of self.now n }
    {
        self.elements.at(n)
    }

    /// The value of its attribute of this name.
    pub fn value(&self, n: u32, name: &[u8]) -> Option<&[u8]>
        requires { n < length self.now.doc }
        ensures { option_copied result ≡ value name.now self.now n }
    {
        self.elements.value_of(n, name)
    }

    /// The same; empty where the element has none.
    pub fn value_or_empty(&self, n: u32, name: &[u8]) -> &[u8]
        requires { n < length self.now.doc }
        ensures { result.now ≡ value_or_empty self.now.doc n name.now }
    {
        match self.elements.value_of(n, name) {
            None => b"",
            Some(value) => value,
        }
    }

    /// Its id; empty where it has none.
    pub fn id(&self, n: u32) -> &[u8]
        requires { n < length self.now.doc }
        ensures { result.now ≡ id_of self.now n }
    {
        self.value_or_empty(n, b"xmi:id")
    }

    /// Whether its attribute of this name says `true`.
    pub fn is_true(&self, n: u32, name: &[u8]) -> bool
        requires { n < length self.now.doc }
        ensures { result ≡ says_true name.now self.now n }
    {
        truth(self.value(n, name)) == Some(true)
    }

    /// Its first child.
    pub fn first_child(&self, p: u32) -> Option<u32>
        requires { p < length self.now.doc }
        ensures { IsNextChild self.now.doc p 0 result }
    {
        self.elements.first_child(p)
    }

    /// The next child of its parent.
    pub fn next_sibling(&self, n: u32) -> Option<u32>
        requires { n < length self.now.doc }
        ensures { (p : ℕ) → IsParent self.now.doc p n → IsNextChild self.now.doc p (suc n) result }
    {
        self.elements.next_sibling(n)
    }

    /// Whether it is a child of this name of the element `p`.
    pub fn is_named(&self, n: u32, p: u32, name: &[u8]) -> bool
        requires { n < length self.now.doc }
        ensures { result ≡ option_map_or (is_child_of p name.now) (slice_get self.now.doc n) false }
    {
        self.elements.parent(n) == Some(p) && self.elements.name(n) == name
    }

    // Whether it is a child of this kind of the element.
    fn is_in(&self, n: u32, p: u32, kind: Kind) -> bool
        requires { n < length self.now.doc }
        ensures { result ≡ (of_kind kind (role_at self.now n) && is_number p (parent_of self.now n)) }
    {
        is_of(kind, self.role(n)) && self.parent(n) == Some(p)
    }

    /// Its first child of this name.
    pub fn child_named(&self, p: u32, name: &[u8]) -> Option<u32>
        requires { p < length self.now.doc }
        ensures first { result ≡ named_child name.now self.now p }
        ensures within { IfSome result (λ m. m < length self.now.doc) }
    {
        let mut next = self.first_child(p);
        'children: while let Some(child) = next {
            if self.is_named(child, p, name) {
                return Some(child);
            }
            next = self.next_sibling(child);
        }
        None
    }

    /// Its first child of this kind.
    pub fn child_with(&self, p: u32, kind: Kind) -> Option<u32>
        requires { p < length self.now.doc }
        ensures first { result ≡ kind_child (of_kind kind) self.now p }
        ensures within { IfSome result (λ m. m < length self.now.doc) }
    {
        let mut next = self.first_child(p);
        'children: while let Some(child) = next {
            if self.is_in(child, p, kind) {
                return Some(child);
            }
            next = self.next_sibling(child);
        }
        None
    }
}
