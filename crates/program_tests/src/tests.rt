//! The tables of programs are answered.

use crate::elaborated::Elaborated;
use crate::tables;
use std::test::Fail;
use test_rows::wrong_rows;

#[test]
fn files_are_refused_for_their_reason(rt: HostRuntime) -> Result<(), Fail> {
    let wrong = wrong_rows(
        rt.alloc(),
        &Elaborated::MarkedFault,
        tables::refused_files(),
    )?;
    assert_eq!(rt; wrong.as_str(), "");
    Ok(())
}

#[test]
fn limits_are_exact(rt: HostRuntime) -> Result<(), Fail> {
    let wrong = wrong_rows(rt.alloc(), &Elaborated::Theorems, tables::large_files())?;
    assert_eq!(rt; wrong.as_str(), "");
    Ok(())
}

#[test]
fn rules_are_tried_in_order(rt: HostRuntime) -> Result<(), Fail> {
    let wrong = wrong_rows(rt.alloc(), &Elaborated::Order, tables::orders())?;
    assert_eq!(rt; wrong.as_str(), "");
    Ok(())
}

#[test]
fn constants_are_printed(rt: HostRuntime) -> Result<(), Fail> {
    let wrong = wrong_rows(rt.alloc(), &Elaborated::Printed, tables::constants())?;
    assert_eq!(rt; wrong.as_str(), "");
    Ok(())
}

#[test]
fn printed_types_read_back(rt: HostRuntime) -> Result<(), Fail> {
    let wrong = wrong_rows(rt.alloc(), &Elaborated::ReadBack, tables::types())?;
    assert_eq!(rt; wrong.as_str(), "");
    Ok(())
}
