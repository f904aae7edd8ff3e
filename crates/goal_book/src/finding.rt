//! Applications of one rule.

ghost use Rattle.std.specs.Prelude.{◌<◌, length, map, IfOk};
ghost use Rattle.lf_definitions.specs.GoalLists.{all_goals};
ghost use Rattle.meta_goals.specs.GoalsOf.{goals_of};
ghost use Rattle.rule_methods.specs.RuleMethods.{AreApplications};
ghost use Rattle.build_shared.specs.RuleUses.{KnowShapes};
ghost use Rattle.build_shared.specs.Seen.{seen_application};
ghost use Rattle.goal_book.specs.Queries.{IsQuery};

use crate::query::Query;
use basics::NoMemory;
use build_shared::App;
use rule_sets::Builder;

/// The applications of the rule of this number, by its builder, in its order.
pub fn applications(query: &Query<'_>, number: u32) -> Result<Vec<App>, NoMemory>
    requires query { IsQuery query.now }
    requires number { number < length query.now.rules.now.rules }
    ensures applications { IfOk result (λ apps. AreApplications query.now.sig.now query.now.rules.now number (goals_of query.now.goals.now) (map seen_application apps.items)) }
    ensures shapes { IfOk result (λ apps. KnowShapes (all_goals (goals_of query.now.goals.now)) apps.items) }
{
    let rule = query.rules.rule(number);
    match rule.builder {
        Builder::Apply | Builder::Constructors | Builder::Assumption | Builder::Hyps => {
            let apps = build_apply::applications(
                query.alloc,
                query.sig,
                query.rules,
                number,
                query.goals,
            )?;
            Ok(apps)
        }
        Builder::Cases => {
            let apps = build_cases::applications(
                query.alloc,
                query.sig,
                query.rules,
                number,
                query.goals,
            )?;
            Ok(apps)
        }
        Builder::Forward | Builder::Destruct => {
            let apps = build_forward::applications(
                query.alloc,
                query.sig,
                query.rules,
                number,
                query.goals,
            )?;
            Ok(apps)
        }
    }
}
