//! Shapes.

ghost use Rattle.std.specs.Prelude.{sum, ◌≡◌, ◌+◌, ◌<◌, ◌≤◌, Some, None, length, IfOk, OnOk};
ghost use Rattle.std.specs.Option.{option_map};
ghost use Rattle.tree_runs.specs.Shapes.{root_shape, nodes_count, above_at, alternatives_at, grow, IsShape};
ghost use Rattle.tree_runs.specs.Marks.{entry_at};
ghost use Rattle.tree_shape.specs.Room.{HasAlternative};

use crate::grow::add_alternatives;
use basics::limits::LIST_LIMIT;
use basics::{Ids, NoMemory};
use std::alloc::Global;
use std::marker::Model;

/// Nodes by number, and how they hang together. A contract sees the shape and for how much more there is room.
#[derive(Drop)]
pub struct Shape {
    above: Vec<Option<(u32, u32, u32)>>,
    spans: Vec<Option<(u32, u32)>>,
    alternatives: Vec<(u32, u32)>,
    spare: usize,
}

impl Model for Shape {
    ghost use Rattle.std.specs.Prelude.{length, vec_capacity};
    ghost use Rattle.tree_shape.specs.Room.{ShapeRoom, shape_from, IsRepresented, HasRoom};

    ghost Value = { ShapeRoom };

    ghost view = { λ s. record { shape = shape_from s.above.items s.spans.items s.alternatives.items; spare = s.spare } };

    ghost invariant = { λ s. IsRepresented s.above.items s.spans.items s.alternatives.items
        × HasRoom (length s.above.items) (vec_capacity s.above) s.spare
        × HasRoom (length s.spans.items) (vec_capacity s.spans) s.spare
        × HasRoom (length s.alternatives.items) (vec_capacity s.alternatives) s.spare };
}

impl Shape {
    /// The root, node 0, alone. It is refused when out of memory.
    pub fn new(alloc: Global) -> Result<Shape, NoMemory>
        ensures { IfOk result (λ made. made.shape ≡ root_shape) }
    {
        let mut above = Vec::new(alloc);
        above.push(None)?;
        let mut spans = Vec::new(alloc);
        spans.push(None)?;
        Ok(Shape {
            above,
            spans,
            alternatives: Vec::new(alloc),
            spare: 0,
        })
    }

    /// Makes room for this many nodes and alternatives together, so that growing takes no memory. A refusal changes nothing.
    pub fn reserve(&mut self, n: usize) -> Result<(), NoMemory>
        ensures shape { self.new.shape ≡ self.old.shape }
        ensures more { self.old.spare ≤ self.new.spare }
        ensures ok { OnOk result (n ≤ self.new.spare) }
    {
        if n <= self.spare {
            return Ok(());
        }
        let most = LIST_LIMIT as usize;
        if n > most - self.above.len() || n > most - self.alternatives.len() {
            return Err(NoMemory);
        }
        self.above.reserve(n)?;
        self.spans.reserve(n)?;
        self.alternatives.reserve(n)?;
        self.spare = n;
        Ok(())
    }

    /// How many nodes there are.
    pub fn len(&self) -> u32
        ensures count { result ≡ nodes_count self.now.shape }
        ensures shape { IsShape self.now.shape }
    {
        self.above.len() as u32
    }

    /// Hangs one alternative below a node for each count, with as many children as it says, which have the next free numbers. The node
    /// stands and wasn't grown, and there is room. It takes no memory.
    pub fn grow(&mut self, node: u32, counts: &Ids)
        requires stands { node < nodes_count self.old.shape }
        requires ungrown { alternatives_at self.old.shape node ≡ None }
        requires room { sum counts.now + length counts.now ≤ self.old.spare }
        ensures shape { self.new.shape ≡ grow self.old.shape node counts.now }
        ensures spare { self.old.spare ≡ self.new.spare + (sum counts.now + length counts.now) }
    {
        let counts = counts.as_slice();
        let nodes = self.above.len();
        let start = self.alternatives.len() as u32;
        self.spans[node as usize] = Some((start, counts.len() as u32));
        add_alternatives(
            &mut self.above,
            &mut self.spans,
            &mut self.alternatives,
            node,
            counts,
        );
        self.spare -= self.above.len() - nodes + counts.len();
    }

    /// The number of the first child of an alternative that the node has, 0 where it has none, and how many children it has.
    pub fn children(&self, node: u32, alternative: u32) -> (u32, u32)
        requires { HasAlternative self.now.shape node alternative }
        ensures { entry_at (alternatives_at self.now.shape node) alternative ≡ Some result }
    {
        match self.spans[node as usize] {
            Some((start, _)) => self.alternatives[(start + alternative) as usize],
            None => (0, 0),
        }
    }

    /// How many alternatives a node that stands has; nothing where it wasn't grown.
    pub fn width(&self, node: u32) -> Option<u32>
        requires { node < nodes_count self.now.shape }
        ensures { result ≡ option_map length (alternatives_at self.now.shape node) }
    {
        match self.spans[node as usize] {
            Some((_, width)) => Some(width),
            None => None,
        }
    }

    /// The node above one that stands, the alternative there, and the place among its children from 0; nothing for node 0.
    pub fn above(&self, node: u32) -> Option<(u32, u32, u32)>
        requires { node < nodes_count self.now.shape }
        ensures { result ≡ above_at self.now.shape node }
    {
        self.above[node as usize]
    }
}
