//! Shapes.

ghost use Rattle.std.specs.Prelude.{◌≡◌, ◌++◌, IfOk, OnOk, OnErr, [], ◌∷◌, length};
ghost use Rattle.lf_terms.specs.Shapes.{simple_type_of, simple_types_of, metas_of};

use basics::NoMemory;
use std::alloc::Global;
use std::marker::Model;
use std::sync::Arc;

/// The shape of a type: the shapes of its binders.
#[cycle(shape)]
#[derive(Drop)]
pub struct Shape {
    pub args: Shapes,
}

/// A list of shapes. A contract sees the list of the simple types.
#[cycle(shape)]
#[derive(Drop)]
pub struct Shapes {
    items: Option<Arc<Vec<Shape>>>,
}

impl Model for Shapes {
    ghost use Rattle.std.specs.Prelude.{List};
    ghost use Rattle.lf_definitions.specs.Syntax.{SimpleType, shapes_size};
    ghost use Rattle.lf_definitions.specs.Codes.{shapes_code};

    ghost Value = { List SimpleType };

    ghost coded = { shapes_code };

    ghost use Rattle.lf_terms.specs.Shapes.{kept_shapes};

    ghost view = { λ a. kept_shapes a.items };

    ghost size = { shapes_size };

    ghost use Rattle.lf_terms.specs.ShapeSizes.{shapes_fall};

    ghost size_decreases = { λ a h. shapes_fall a };
}

impl Shape {
    /// An equal shape.
    pub fn copy(&self) -> Result<Shape, NoMemory>
        ensures { IfOk result (λ shape. simple_type_of shape ≡ simple_type_of self.now) }
    {
        let args = self.args.copy()?;
        Ok(Shape { args })
    }
}

impl Shapes {
    /// No shapes. It takes no memory.
    pub fn new() -> Shapes
        ensures { result ≡ [] }
    {
        Shapes { items: None }
    }

    /// The shapes of a vector.
    pub fn from_vec(alloc: Global, items: Vec<Shape>) -> Result<Shapes, NoMemory>
        ensures { IfOk result (λ shapes. shapes ≡ simple_types_of items.items) }
    {
        if items.is_empty() {
            return Ok(Shapes { items: None });
        }
        let block = Arc::new(alloc, items)?;
        Ok(Shapes { items: Some(block) })
    }

    /// The shapes as a slice. It takes no memory.
    pub fn as_slice(&self) -> &[Shape]
        ensures { simple_types_of result.now ≡ self.now }
    {
        match &self.items {
            None => &[],
            Some(block) => block.as_slice(),
        }
    }

    /// How many shapes there are. It takes no memory.
    #[tactic(auto, using(crate::proofs::ShapeLists::lengths))]
    pub fn len(&self) -> usize
        ensures { result ≡ length self.now }
    {
        self.as_slice().len()
    }

    /// Adds a shape at the end, in one step where no copy shares the list. A refusal leaves it as it was.
    pub fn push(&mut self, alloc: Global, shape: Shape) -> Result<(), NoMemory>
        ensures ok { OnOk result (self.new ≡ self.old ++ simple_type_of shape ∷ []) }
        ensures err { OnErr result (self.new ≡ self.old) }
    {
        if let Some(block) = &mut self.items {
            if let Some(items) = Arc::get_mut(block) {
                items.push(shape)?;
                return Ok(());
            }
        }
        let mut items = copied(alloc, self.as_slice())?;
        items.push(shape)?;
        self.items = Some(Arc::new(alloc, items)?);
        Ok(())
    }

    /// An equal list.
    pub fn copy(&self) -> Result<Shapes, NoMemory>
        ensures { IfOk result (λ shapes. shapes ≡ self.now) }
    {
        match &self.items {
            None => Ok(Shapes { items: None }),
            Some(block) => {
                let block = Arc::try_clone(block)?;
                Ok(Shapes { items: Some(block) })
            }
        }
    }
}

// Equal shapes, in a vector of their own with room for one more.
fn copied(alloc: Global, shapes: &[Shape]) -> Result<Vec<Shape>, NoMemory>
    ensures { IfOk result (λ copies. simple_types_of copies.items ≡ simple_types_of shapes.now) }
{
    let mut copies = Vec::new(alloc);
    for shape in shapes {
        copies.push(shape.copy()?)?;
    }
    Ok(copies)
}

/// The shape of a metavariable: its goal's number, and the shapes of its goal's context.
#[derive(Drop)]
pub struct MetaShape {
    pub id: u32,
    pub args: Shapes,
}

/// The shapes of metavariables. A contract sees the list of numbers with simple types.
#[derive(Drop)]
pub struct MetaShapes {
    items: Vec<MetaShape>,
}

impl Model for MetaShapes {
    ghost use Rattle.std.specs.Prelude.{List, ℕ};
    ghost use Rattle.lf_definitions.specs.Syntax.{SimpleType};
    ghost use Rattle.lf_definitions.specs.Codes.{numbered_shapes_code};

    ghost Value = { List (ℕ × SimpleType) };

    ghost coded = { numbered_shapes_code };

    ghost use Rattle.lf_terms.specs.Shapes.{metas_of};

    ghost view = { λ a. metas_of a.items.items };
}

impl MetaShapes {
    /// No shapes. It takes no memory.
    pub fn new(alloc: Global) -> MetaShapes
        ensures { result ≡ [] }
    {
        MetaShapes {
            items: Vec::new(alloc),
        }
    }

    /// The shapes of a vector. It takes no memory.
    pub fn from_vec(items: Vec<MetaShape>) -> MetaShapes
        ensures { result ≡ metas_of items.items }
    {
        MetaShapes { items }
    }

    /// The shapes as a slice. It takes no memory.
    pub fn as_slice(&self) -> &[MetaShape]
        ensures { metas_of result.now ≡ self.now }
    {
        self.items.as_slice()
    }
}
