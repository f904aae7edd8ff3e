//! What is answered.

use crate::answers::Asked;
use crate::instances::Part;
use crate::openings::opened_text;
use crate::tables;
use std::test::Fail;
use test_rows::wrong_rows;

#[test]
fn the_rows_that_were_asked_for_are_answered(rt: HostRuntime) -> Result<(), Fail> {
    let wrong = wrong_rows(rt.alloc(), &Asked::Unified, tables::asked_for())?;
    assert_eq!(rt; wrong.as_str(), "");
    Ok(())
}

#[test]
fn equations_are_solved(rt: HostRuntime) -> Result<(), Fail> {
    let wrong = wrong_rows(rt.alloc(), &Asked::Unified, tables::solved())?;
    assert_eq!(rt; wrong.as_str(), "");
    Ok(())
}

#[test]
fn equations_without_solution_are_refused(rt: HostRuntime) -> Result<(), Fail> {
    let wrong = wrong_rows(rt.alloc(), &Asked::Unified, tables::without_solution())?;
    assert_eq!(rt; wrong.as_str(), "");
    Ok(())
}

#[test]
fn unclear_equations_are_refused(rt: HostRuntime) -> Result<(), Fail> {
    let wrong = wrong_rows(rt.alloc(), &Asked::Unified, tables::refused())?;
    assert_eq!(rt; wrong.as_str(), "");
    Ok(())
}

#[test]
fn terms_are_instantiated(rt: HostRuntime) -> Result<(), Fail> {
    let wrong = wrong_rows(rt.alloc(), &Asked::Instance(Part::Term), tables::terms())?;
    assert_eq!(rt; wrong.as_str(), "");
    Ok(())
}

#[test]
fn arguments_are_instantiated(rt: HostRuntime) -> Result<(), Fail> {
    let wrong = wrong_rows(rt.alloc(), &Asked::Instance(Part::Args), tables::args())?;
    assert_eq!(rt; wrong.as_str(), "");
    Ok(())
}

#[test]
fn atoms_are_instantiated(rt: HostRuntime) -> Result<(), Fail> {
    let wrong = wrong_rows(rt.alloc(), &Asked::Instance(Part::Atom), tables::atoms())?;
    assert_eq!(rt; wrong.as_str(), "");
    Ok(())
}

#[test]
fn types_are_instantiated(rt: HostRuntime) -> Result<(), Fail> {
    let wrong = wrong_rows(rt.alloc(), &Asked::Instance(Part::Type), tables::types())?;
    assert_eq!(rt; wrong.as_str(), "");
    Ok(())
}

#[test]
fn contexts_are_instantiated(rt: HostRuntime) -> Result<(), Fail> {
    let wrong = wrong_rows(
        rt.alloc(),
        &Asked::Instance(Part::Context),
        tables::contexts(),
    )?;
    assert_eq!(rt; wrong.as_str(), "");
    Ok(())
}

#[test]
fn goals_are_instantiated(rt: HostRuntime) -> Result<(), Fail> {
    let wrong = wrong_rows(rt.alloc(), &Asked::Instance(Part::Goal), tables::goals())?;
    assert_eq!(rt; wrong.as_str(), "");
    Ok(())
}

#[test]
fn assigned_goals_are_dropped(rt: HostRuntime) -> Result<(), Fail> {
    let wrong = wrong_rows(rt.alloc(), &Asked::Instance(Part::Goals), tables::left())?;
    assert_eq!(rt; wrong.as_str(), "");
    Ok(())
}

#[test]
fn goals_mention_metavariables(rt: HostRuntime) -> Result<(), Fail> {
    let wrong = wrong_rows(rt.alloc(), &Asked::Mentions, tables::mentioned())?;
    assert_eq!(rt; wrong.as_str(), "");
    Ok(())
}

#[test]
fn goals_are_renamed(rt: HostRuntime) -> Result<(), Fail> {
    let wrong = wrong_rows(rt.alloc(), &Asked::Renamed, tables::renamed())?;
    assert_eq!(rt; wrong.as_str(), "");
    Ok(())
}

#[test]
fn a_type_is_opened(rt: HostRuntime) -> Result<(), Fail> {
    let text = opened_text(rt.alloc())?;
    assert_eq!(rt; text.as_slice(), tables::opened().as_bytes());
    Ok(())
}
