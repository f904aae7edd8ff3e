//! The variables at a place in a term or a type.

ghost use Rattle.std.specs.Prelude.{◌≡◌, ◌+◌, option_map};
ghost use Rattle.lf_definitions.specs.Syntax.{bound};
ghost use Rattle.lf_definitions.specs.Renaming.{rename_type, next_by};
ghost use Rattle.lf_kernel.specs.LocalContexts.{typing_under, no_heads};
ghost use Rattle.lf_terms.specs.Types.{type_of};

use lf_terms::Ty;

/// The variables of binders, those of one prefix together, each type in the scope of the variables before it.
#[derive(Clone, Copy)]
pub enum LocalContext<'a> {
    Closed,
    Under(&'a [Ty], &'a LocalContext<'a>),
}

/// The type of a variable, as it stands at the variable's own binder, if there is one of this number. It goes
/// from prefix to prefix, and takes no memory.
pub fn type_of_variable<'a>(scope: &'a LocalContext<'a>, number: usize) -> Option<&'a Ty>
    ensures { option_map (λ ty. rename_type (next_by (number + 1)) (type_of ty.now)) result ≡ typing_under no_heads scope.now (bound number) }
{
    match scope {
        LocalContext::Closed => None,
        LocalContext::Under(types, outside) => {
            let count = types.len();
            if number < count {
                Some(&types[count - 1 - number])
            } else {
                type_of_variable(outside, number - count)
            }
        }
    }
}
