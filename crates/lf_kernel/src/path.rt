//! Paths as a walk makes them: from the last step to the first, since the place of a failure is known
//! before what is above it.

ghost use Rattle.std.specs.Prelude.{◌≡◌, ◌++◌, [], ◌∷◌, IfOk, reverse, replicate};

use basics::{Ids, NoMemory};

// The path with one step more.
pub fn step(mut path: Ids, child: usize) -> Result<Ids, NoMemory>
    ensures { IfOk result (λ longer. longer ≡ path ++ child ∷ []) }
{
    if child > u32::MAX as usize {
        return Err(NoMemory);
    }
    path.push(child as u32)?;
    Ok(path)
}

// The path with so many steps more, each into the body of an abstraction.
pub fn under(mut path: Ids, count: usize) -> Result<Ids, NoMemory>
    ensures { IfOk result (λ longer. longer ≡ path ++ replicate count 0) }
{
    for _ in 0..count {
        path.push(0)?;
    }
    Ok(path)
}

// The path from the first step to the last.
pub fn turned(path: Ids) -> Ids
    ensures { result ≡ reverse path }
{
    let mut steps = path.into_vec();
    steps.reverse();
    Ids::from_vec(steps)
}
