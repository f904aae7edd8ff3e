//! The tables of applications and of look-ups are answered.

use crate::answers::Asked;
use crate::tables;
use std::test::Fail;
use test_rows::wrong_rows;

#[test]
fn constants_close_goals(rt: HostRuntime) -> Result<(), Fail> {
    let wrong = wrong_rows(rt.alloc(), &Asked::Applications, tables::constants())?;
    assert_eq!(rt; wrong.as_str(), "");
    Ok(())
}

#[test]
fn hypotheses_close_goals(rt: HostRuntime) -> Result<(), Fail> {
    let wrong = wrong_rows(rt.alloc(), &Asked::Applications, tables::hypotheses())?;
    assert_eq!(rt; wrong.as_str(), "");
    Ok(())
}

#[test]
fn hypotheses_are_split(rt: HostRuntime) -> Result<(), Fail> {
    let wrong = wrong_rows(rt.alloc(), &Asked::Applications, tables::splits())?;
    assert_eq!(rt; wrong.as_str(), "");
    Ok(())
}

#[test]
fn conclusions_are_added(rt: HostRuntime) -> Result<(), Fail> {
    let wrong = wrong_rows(rt.alloc(), &Asked::Applications, tables::additions())?;
    assert_eq!(rt; wrong.as_str(), "");
    Ok(())
}

#[test]
fn targets_find_their_rules(rt: HostRuntime) -> Result<(), Fail> {
    let wrong = wrong_rows(rt.alloc(), &Asked::Found, tables::lookups())?;
    assert_eq!(rt; wrong.as_str(), "");
    Ok(())
}
