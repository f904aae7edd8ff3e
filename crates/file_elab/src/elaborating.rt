//! From the tree of a file to its program.

ghost use Rattle.std.specs.Prelude.{◌≡◌, IfOk, IfErr, OnOk};
ghost use Rattle.rule_sets.specs.Refusals.{IsOver};
ghost use Rattle.elab_terms.specs.KnownTypes.{IsRefusal};
ghost use Rattle.file_elab.specs.GrammarNames.{HasGrammarNames};
ghost use Rattle.file_elab.specs.ProgramViews.{program_of};
ghost use Rattle.file_elab.specs.Programs.{IsProgram, IsRefused, IsParsedFrom, Declares, Refuses};
ghost use Rattle.file_elab.specs.Theorems.{AreFormed};

use crate::constructors::declare_constructors;
use crate::program::Program;
use crate::rules::declare_rule;
use crate::symbols::{declare_constant, declare_family};
use crate::theorem::TheoremList;
use crate::theorems::declare_theorem;
use elab_terms::ElabFault;
use file_trees::{DeclTree, FileTree};
use lf_terms::Signature;
use rule_sets::RuleBook;
use std::alloc::Global;

/// The program of a file, from its bytes and its tree: declarations are taken in order, each over those
/// before it, names are resolved, and every term is made eta-long. The fault is the first, with its place.
/// The types of the theorems are well formed, the rules fit the signature, and all names are names of the
/// grammar.
pub fn elaborate(alloc: Global, bytes: &[u8], tree: &FileTree) -> Result<Program, ElabFault>
    requires { IsParsedFrom bytes.now tree.now.decls }
    ensures program { IfOk result (λ program. IsProgram bytes.now tree.now.decls (program_of program)) }
    ensures theorems { IfOk result (λ program. AreFormed program.sig program.theorems) }
    ensures rules { IfOk result (λ program. IsOver program.sig program.rules) }
    ensures names { IfOk result (λ program. HasGrammarNames (program_of program)) }
    ensures refused { IfErr result (IsRefusal (IsRefused bytes.now tree.now.decls)) }
{
    declared(alloc, bytes, tree.decls.as_slice())
}

// The program that the declarations make, from the one with none.
fn declared(alloc: Global, source: &[u8], declarations: &[DeclTree]) -> Result<Program, ElabFault>
    ensures program { IfOk result (λ program. IsProgram source.now declarations.now (program_of program)) }
    ensures theorems { IfOk result (λ program. AreFormed program.sig program.theorems) }
    ensures rules { IfOk result (λ program. IsOver program.sig program.rules) }
    ensures refused { IfErr result (IsRefusal (IsRefused source.now declarations.now)) }
{
    let rules = RuleBook::new(alloc)?;
    let mut program = Program {
        sig: Signature::new(alloc),
        rules,
        theorems: TheoremList::new(alloc),
    };
    for declaration in declarations {
        if let Err(fault) = declare(alloc, source, &mut program, declaration) {
            return Err(fault);
        }
    }
    Ok(program)
}

// Adds what a declaration declares to the program, or answers why not.
fn declare(
    alloc: Global,
    source: &[u8],
    program: &mut Program,
    declaration: &DeclTree,
) -> Result<(), ElabFault>
    requires { IsOver program.old.sig program.old.rules }
    ensures declared { IfOk result (λ _. Declares source.now (program_of program.old) declaration.now (program_of program.new)) }
    ensures formed { OnOk result (AreFormed program.old.sig program.old.theorems → AreFormed program.new.sig program.new.theorems) }
    ensures over { OnOk result (IsOver program.old.sig program.old.rules → IsOver program.new.sig program.new.rules) }
    ensures refused { IfErr result (IsRefusal (Refuses source.now (program_of program.old) declaration.now)) }
{
    match declaration {
        DeclTree::Family(name, tree) => {
            declare_family(alloc, source, &mut program.sig, *name, tree)
        }
        DeclTree::Const(name, tree) => {
            declare_constant(alloc, source, &mut program.sig, *name, tree)
        }
        DeclTree::Theorem(tree) => {
            declare_theorem(alloc, source, &program.sig, &mut program.theorems, tree)
        }
        DeclTree::Rule(parts) => {
            declare_rule(alloc, source, &program.sig, &mut program.rules, *parts)
        }
        DeclTree::Ctors(name, spans) => declare_constructors(
            alloc,
            source,
            &program.sig,
            &mut program.rules,
            *name,
            spans,
        ),
    }
}
