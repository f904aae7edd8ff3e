//! Signatures.

ghost use Rattle.std.specs.Prelude.{◌≡◌, ◌++◌, ◌<◌, ℕ, List, [], ◌∷◌, Some, IfOk, IfErr, OnOk, OnErr, IsTrue, length, slice_get};
ghost use Rattle.std.specs.Vec.{vec_len, vec_capacity};
ghost use Rattle.lf_definitions.specs.Syntax.{shapes_of_types};
ghost use Rattle.lf_definitions.specs.Typing.{type_at};
ghost use Rattle.lf_definitions.specs.Signatures.{LfSignature, family_entry, constant_entry, names_of, family_names, family_kinds, constant_names, constant_types, kinds_in, IsNewName, FormedEntry, FormedSignature};
ghost use Rattle.basics.specs.Places.{place_of};
ghost use Rattle.lf_terms.specs.Types.{type_of};
ghost use Rattle.basics.specs.Limits.{most_symbols};

use crate::found::Found;
use crate::shape::Shapes;
use crate::shape_of::shape_of;
use crate::ty::{Kind, Ty};
use basics::{Name, Names};
use std::alloc::Global;
use std::marker::Model;

/// Families with their kinds and constants with their types, each under a name of its own, in the order in
/// which they were added. Families and constants are numbered apart, from 0. A contract sees the list of the
/// entries, which is a well-formed signature.
#[derive(Drop)]
pub struct Signature {
    names: Names,
    order: Vec<Found>,
    families: Vec<FamilyEntry>,
    constants: Vec<ConstEntry>,
    shapes: Shapes,
}

#[derive(Drop)]
struct FamilyEntry {
    name: Name,
    kind: Kind,
}

#[derive(Drop)]
struct ConstEntry {
    name: Name,
    ty: Ty,
}

impl Model for Signature {
    ghost use Rattle.lf_definitions.specs.Signatures.{LfSignature};
    ghost use Rattle.lf_definitions.specs.Codes.{signature_code};

    ghost Value = { LfSignature };

    ghost coded = { signature_code };

    ghost use Rattle.lf_terms.specs.Entries.{signature_entries, Keeps};

    ghost view = { λ a. signature_entries a.order.items a.families.items a.constants.items };

    ghost invariant = { λ a. Keeps (signature_entries a.order.items a.families.items a.constants.items) a.names a.order.items a.families.items a.constants.items a.shapes };
}

impl Signature {
    ghost use Rattle.std.specs.Prelude.{◌≡◌, ◌++◌, ◌<◌, ℕ, List, [], ◌∷◌, Some, IfOk, IfErr, OnOk, OnErr, length, slice_get};
    ghost use Rattle.lf_definitions.specs.Syntax.{shapes_of_types};
    ghost use Rattle.lf_definitions.specs.Typing.{type_at};
    ghost use Rattle.lf_definitions.specs.Signatures.{family_entry, constant_entry, names_of, family_names, family_kinds, constant_names, constant_types, kinds_in, IsNewName, FormedEntry, FormedSignature};
    ghost use Rattle.basics.specs.Places.{place_of};
    ghost use Rattle.lf_terms.specs.Types.{type_of};
    ghost use Rattle.lf_terms.specs.Finding.{Finds};

    /// The signature with no entry. It takes no memory.
    pub fn new(alloc: Global) -> Signature
        ensures { result ≡ [] }
    {
        Signature {
            names: Names::new(alloc),
            order: Vec::new(alloc),
            families: Vec::new(alloc),
            constants: Vec::new(alloc),
            shapes: Shapes::new(),
        }
    }

    /// A law: a signature is well formed. It does nothing.
    pub fn is_formed(&self)
        ensures { FormedSignature self.now }
    {
        let _ = &self.order;
    }

    /// A law: a signature has at most 65,535 entries. It does nothing.
    pub fn has_few_entries(&self)
        ensures { length self.now < 65536 }
    {
        let _ = &self.order;
    }

    /// How many entries there are.
    pub fn size(&self) -> u32
        ensures { result ≡ length self.now }
    {
        self.order.len() as u32
    }

    /// How many families there are.
    pub fn families(&self) -> u32
        ensures names { result ≡ length (family_names self.now) }
        ensures kinds { result ≡ length (family_kinds self.now) }
    {
        self.families.len() as u32
    }

    /// How many constants there are.
    pub fn constants(&self) -> u32
        ensures names { result ≡ length (constant_names self.now) }
        ensures types { result ≡ length (constant_types self.now) }
    {
        self.constants.len() as u32
    }

    /// What a name stands for, by a look-up. It takes no memory.
    pub fn find(&self, name: &Name) -> Found
        ensures { Finds self.now name.now result }
    {
        self.find_bytes(name.as_bytes())
    }

    /// What the name of these bytes stands for, as `find` answers it.
    pub fn find_bytes(&self, name: &[u8]) -> Found
        ensures { Finds self.now name.now result }
    {
        match self.names.find(name) {
            None => Found::Absent,
            Some(place) => self.order[place as usize],
        }
    }

    /// The place of the entry that has a name, among all entries from 0 in the order in which they were added.
    /// It takes no memory.
    pub fn order_of(&self, name: &Name) -> Option<u32>
        ensures { result ≡ place_of (names_of self.now) name.now }
    {
        self.names.find(name.as_bytes())
    }

    /// The kind of a family. It takes no memory.
    pub fn kind_of(&self, family: u32) -> &Kind
        requires { family < length (family_names self.now) }
        ensures { kinds_in self.now family ≡ Some result.now.binders }
    {
        &self.families[family as usize].kind
    }

    /// The type of a constant. It takes no memory.
    pub fn type_of(&self, constant: u32) -> &Ty
        requires { constant < length (constant_names self.now) }
        ensures { type_at (constant_types self.now) constant ≡ Some (type_of result.now) }
    {
        &self.constants[constant as usize].ty
    }

    /// The name of a family. It takes no memory.
    pub fn family_name(&self, family: u32) -> &Name
        requires { family < length (family_names self.now) }
        ensures { slice_get (family_names self.now) family ≡ Some result.now }
    {
        &self.families[family as usize].name
    }

    /// The name of a constant. It takes no memory.
    pub fn const_name(&self, constant: u32) -> &Name
        requires { constant < length (constant_names self.now) }
        ensures { slice_get (constant_names self.now) constant ≡ Some result.now }
    {
        &self.constants[constant as usize].name
    }

    /// The shapes of the types of the constants, by their numbers. It takes no memory.
    pub fn shapes(&self) -> &Shapes
        ensures { result.now ≡ shapes_of_types (constant_types self.now) }
    {
        &self.shapes
    }

    /// Adds a family with its kind and answers its number. When memory runs out the name comes back, and the
    /// signature is as it was.
    pub fn push_family(&mut self, alloc: Global, name: Name, kind: Kind) -> Result<u32, Name>
        requires is_new { IsNewName self.old name }
        requires room { length self.old < most_symbols }
        requires formed { FormedEntry self.old (family_entry name kind.binders) }
        ensures number { IfOk result (λ number. number ≡ length (family_names self.old)) }
        ensures ok { OnOk result (self.new ≡ self.old ++ family_entry name kind.binders ∷ []) }
        ensures name { IfErr result (λ back. back ≡ name) }
        ensures err { OnErr result (self.new ≡ self.old) }
    {
        if !has_room(&mut self.order) {
            return Err(name);
        }
        if !has_room(&mut self.families) {
            return Err(name);
        }
        let Ok(()) = self.names.add(alloc, name.as_bytes()) else {
            return Err(name);
        };
        let number = self.families.len() as u32;
        put_last(&mut self.order, Found::Family(number));
        put_last(&mut self.families, FamilyEntry { name, kind });
        Ok(number)
    }

    /// Adds a constant with its type and answers its number. When memory runs out the name comes back, and the
    /// signature is as it was.
    pub fn push_const(&mut self, alloc: Global, name: Name, ty: Ty) -> Result<u32, Name>
        requires is_new { IsNewName self.old name }
        requires room { length self.old < most_symbols }
        requires formed { FormedEntry self.old (constant_entry name (type_of ty)) }
        ensures number { IfOk result (λ number. number ≡ length (constant_names self.old)) }
        ensures ok { OnOk result (self.new ≡ self.old ++ constant_entry name (type_of ty) ∷ []) }
        ensures name { IfErr result (λ back. back ≡ name) }
        ensures err { OnErr result (self.new ≡ self.old) }
    {
        let Ok(shape) = shape_of(alloc, &ty) else {
            return Err(name);
        };
        if !has_room(&mut self.order) {
            return Err(name);
        }
        if !has_room(&mut self.constants) {
            return Err(name);
        }
        let Ok(()) = self.names.add(alloc, name.as_bytes()) else {
            return Err(name);
        };
        let Ok(()) = self.shapes.push(alloc, shape) else {
            self.names.drop_last();
            return Err(name);
        };
        let number = self.constants.len() as u32;
        put_last(&mut self.order, Found::Const(number));
        put_last(&mut self.constants, ConstEntry { name, ty });
        Ok(number)
    }
}

// Makes room for one more item, if memory can be had.
fn has_room<T>(items: &mut Vec<T>) -> bool
    ensures room { IsTrue result → vec_len items.new < vec_capacity items.new }
    ensures items { items.new.items ≡ items.old.items }
{
    items.reserve(1).is_ok()
}

// Puts an item last, where there is room for it.
fn put_last<T: Drop>(items: &mut Vec<T>, item: T)
    requires { vec_len items.old < vec_capacity items.old }
    ensures { items.new.items ≡ items.old.items ++ item ∷ [] }
{
    match items.push(item) {
        Ok(()) => {}
        Err(_) => unreachable!(),
    }
}
