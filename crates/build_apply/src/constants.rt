//! Constants that close a goal.

ghost use Rattle.std.specs.Prelude.{OnOk};
ghost use Rattle.lf_terms.specs.Targets.{goal_of};
ghost use Rattle.applications.specs.Candidates.{constructed};
ghost use Rattle.build_shared.specs.RuleUses.{IsRuleUse, AddsWhatCounts, KeepsShapes};
ghost use Rattle.build_apply.specs.Offers.{of_constant};

use crate::backward::add_backward;
use basics::{Ids, NoMemory};
use build_shared::constants::constant_type;
use build_shared::{App, Label, RuleUse};
use lf_terms::Head;

// Adds what comes of a constant, which is the choice at a place of a list.
pub fn add_constant(
    usage: &RuleUse<'_>,
    choice: u32,
    constant: u32,
    found: &mut Vec<App>,
) -> Result<(), NoMemory>
    requires { IsRuleUse usage.now }
    ensures found { OnOk result (AddsWhatCounts usage.now (of_constant usage.now choice constant) found.old.items found.new.items) }
    ensures shapes { OnOk result (KeepsShapes usage.now found.old.items found.new.items) }
{
    match constant_type(usage.sig, constant) {
        None => Ok(()),
        Some(ty) => {
            let label = Label {
                rule: usage.rule,
                choice,
                hyps: Ids::new(usage.alloc),
            };
            add_backward(usage, label, Head::Const(constant), ty, found)
        }
    }
}

// Adds what comes of the constants of a list, each by its place.
pub fn add_constants(
    usage: &RuleUse<'_>,
    constants: &Ids,
    found: &mut Vec<App>,
) -> Result<(), NoMemory>
    requires { IsRuleUse usage.now }
    ensures found { OnOk result (AddsWhatCounts usage.now (constructed usage.now.rule usage.now.sig.now 0 constants.now (goal_of usage.now.goal.now) usage.now.first)
        found.old.items found.new.items) }
    ensures shapes { OnOk result (KeepsShapes usage.now found.old.items found.new.items) }
{
    let items = constants.as_slice();
    let count = items.len();
    if count > u32::MAX as usize {
        return Err(NoMemory);
    }
    for i in 0..count {
        add_constant(usage, i as u32, items[i], found)?;
    }
    Ok(())
}
