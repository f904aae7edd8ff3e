//! The tables of normal forms, alternatives, clusters and scripts are answered.

use crate::answers::{Asked, Question};
use crate::tables;
use std::test::Fail;
use test_rows::wrong_rows;

#[test]
fn goals_are_normalised(rt: HostRuntime) -> Result<(), Fail> {
    let wrong = wrong_rows(
        rt.alloc(),
        &Asked::OfList(Question::NormalForm),
        tables::normal_forms(),
    )?;
    assert_eq!(rt; wrong.as_str(), "");
    Ok(())
}

#[test]
fn alternatives_are_in_order(rt: HostRuntime) -> Result<(), Fail> {
    let wrong = wrong_rows(
        rt.alloc(),
        &Asked::OfList(Question::Alternatives),
        tables::alternatives(),
    )?;
    assert_eq!(rt; wrong.as_str(), "");
    Ok(())
}

#[test]
fn linked_goals_stand_together(rt: HostRuntime) -> Result<(), Fail> {
    let wrong = wrong_rows(
        rt.alloc(),
        &Asked::OfList(Question::Clusters),
        tables::clusters(),
    )?;
    assert_eq!(rt; wrong.as_str(), "");
    Ok(())
}

#[test]
fn scripts_are_followed(rt: HostRuntime) -> Result<(), Fail> {
    let wrong = wrong_rows(rt.alloc(), &Asked::OfScript, tables::scripts())?;
    assert_eq!(rt; wrong.as_str(), "");
    Ok(())
}
