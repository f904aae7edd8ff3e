//! Steps within a rule.

ghost use Rattle.std.specs.Prelude.{◌≡◌, ◌++◌, ◌∷◌, [], IfOk, IsErrOf, None, Some};
ghost use Rattle.file_syntax.specs.Reading.{phase_of, builder_word, next_part, next_word, next_number, next_colon, past_subject, past_major, rule_from, ended_rule, in_rule, ended};

use crate::state::{RuleHead, RulePart, State, StepFault, Top};
use crate::terminal::{Keyword, Terminal};
use file_trees::{BuildWord, DeclTree, PhaseWord, RuleTree, Span};

fn phase_of(word: Keyword) -> Option<PhaseWord>
    ensures { result ≡ phase_of word }
{
    match word {
        Keyword::Norm => Some(PhaseWord::Norm),
        Keyword::Safe => Some(PhaseWord::Safe),
        Keyword::Unsafe => Some(PhaseWord::Unsafe),
        _ => None,
    }
}

fn builder_word(word: Keyword) -> Option<BuildWord>
    ensures { result ≡ builder_word word }
{
    match word {
        Keyword::Apply => Some(BuildWord::Apply),
        Keyword::Constructors => Some(BuildWord::Constructors),
        Keyword::Cases => Some(BuildWord::Cases),
        Keyword::Forward => Some(BuildWord::Forward),
        Keyword::Destruct => Some(BuildWord::Destruct),
        _ => None,
    }
}

/// What follows the subject of a rule.
fn past_subject(rule: RuleHead, word: Keyword) -> Option<RulePart>
    ensures { result ≡ past_subject rule word }
{
    match word {
        Keyword::At => Some(RulePart::ToMajor(rule)),
        Keyword::In => Some(RulePart::ToSet(rule, None)),
        _ => None,
    }
}

/// What follows the number after `at`.
fn past_major(rule: RuleHead, major: Span, word: Keyword) -> Option<RulePart>
    ensures { result ≡ past_major rule major word }
{
    match word {
        Keyword::In => Some(RulePart::ToSet(rule, Some(major))),
        _ => None,
    }
}

/// What follows a part of a rule that is followed by a word.
fn next_word(part: RulePart, word: Keyword, span: Span) -> Option<RulePart>
    ensures { result ≡ next_word part word span }
{
    match part {
        RulePart::ToName => Some(RulePart::ToColon(span)),
        RulePart::ToPhase(name) => match phase_of(word) {
            Some(phase) => Some(RulePart::ToNumber(name, phase)),
            None => None,
        },
        RulePart::ToBuilder(name, phase, number) => match builder_word(word) {
            Some(builder) => Some(RulePart::ToSubject(name, phase, number, builder)),
            None => None,
        },
        RulePart::ToSubject(name, phase, number, builder) => {
            let subject = span;
            Some(RulePart::PastSubject(RuleHead {
                name,
                phase,
                number,
                builder,
                subject,
            }))
        }
        RulePart::PastSubject(rule) => past_subject(rule, word),
        RulePart::PastMajor(rule, major) => past_major(rule, major, word),
        RulePart::ToSet(rule, major) => Some(RulePart::PastSet(rule, major, span)),
        RulePart::ToColon(_) | RulePart::ToNumber(_, _) => None,
        RulePart::ToMajor(_) | RulePart::PastSet(_, _, _) => None,
    }
}

/// What follows a part of a rule, but for its end.
fn next_part(part: RulePart, terminal: Terminal) -> Option<RulePart>
    ensures { result ≡ next_part part terminal }
{
    match terminal {
        Terminal::Word(word, span) => next_word(part, word, span),
        Terminal::Number(span) => next_number(part, span),
        Terminal::Colon(_) => next_colon(part),
        _ => None,
    }
}

/// What follows a part of a rule that is followed by a number.
fn next_number(part: RulePart, span: Span) -> Option<RulePart>
    ensures { result ≡ next_number part span }
{
    match part {
        RulePart::ToNumber(name, phase) => Some(RulePart::ToBuilder(name, phase, span)),
        RulePart::ToMajor(rule) => Some(RulePart::PastMajor(rule, span)),
        _ => None,
    }
}

/// What follows a part of a rule that is followed by a colon.
fn next_colon(part: RulePart) -> Option<RulePart>
    ensures { result ≡ next_colon part }
{
    match part {
        RulePart::ToColon(name) => Some(RulePart::ToPhase(name)),
        _ => None,
    }
}

fn rule_from(rule: RuleHead, major: Option<Span>, set: Option<Span>) -> DeclTree
    ensures { result ≡ rule_from rule major set }
{
    DeclTree::Rule(RuleTree {
        name: rule.name,
        phase: rule.phase,
        number: rule.number,
        builder: rule.builder,
        subject: rule.subject,
        major,
        set,
    })
}

/// The rule, if it may end after this part.
fn ended_rule(part: RulePart) -> Option<DeclTree>
    ensures { result ≡ ended_rule part }
{
    match part {
        RulePart::PastSubject(rule) => Some(rule_from(rule, None, None)),
        RulePart::PastMajor(rule, major) => Some(rule_from(rule, Some(major), None)),
        RulePart::PastSet(rule, major, set) => Some(rule_from(rule, major, Some(set))),
        _ => None,
    }
}

/// A declaration ends.
pub(crate) fn ended(state: &mut State, declaration: Option<DeclTree>) -> Result<(), StepFault>
    ensures ok { IfOk result (λ _. ended state.old.decls state.old.frames declaration ≡ Some state.new) }
    ensures refused { IsErrOf result StepFault.Refused → ended state.old.decls state.old.frames declaration ≡ None }
{
    let Some(declaration) = declaration else {
        return Err(StepFault::Refused);
    };
    state.decls.push(declaration)?;
    state.top = Top::Between;
    Ok(())
}

pub(crate) fn in_rule(
    state: &mut State,
    part: RulePart,
    terminal: Terminal,
) -> Result<(), StepFault>
    ensures ok { IfOk result (λ _. in_rule state.old.decls state.old.frames part terminal ≡ Some state.new) }
    ensures refused { IsErrOf result StepFault.Refused → in_rule state.old.decls state.old.frames part terminal ≡ None }
{
    if let Terminal::Dot(_) = terminal {
        return ended(state, ended_rule(part));
    }
    match next_part(part, terminal) {
        Some(next) => {
            state.top = Top::InRule(next);
            Ok(())
        }
        None => Err(StepFault::Refused),
    }
}
