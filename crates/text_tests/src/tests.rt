//! The tables of texts are answered.

use crate::files::{Asked, strange_beginnings};
use crate::tables;
use std::test::Fail;
use test_rows::wrong_rows;

#[test]
fn texts_have_their_tokens(rt: HostRuntime) -> Result<(), Fail> {
    let wrong = wrong_rows(rt.alloc(), &Asked::Tokens, tables::texts())?;
    assert_eq!(rt; wrong.as_str(), "");
    Ok(())
}

#[test]
fn files_have_their_declarations(rt: HostRuntime) -> Result<(), Fail> {
    let wrong = wrong_rows(rt.alloc(), &Asked::Declarations, tables::files())?;
    assert_eq!(rt; wrong.as_str(), "");
    Ok(())
}

#[test]
fn nesting_is_at_most_256_deep(rt: HostRuntime) -> Result<(), Fail> {
    let wrong = wrong_rows(rt.alloc(), &Asked::Declarations, tables::deep_files())?;
    assert_eq!(rt; wrong.as_str(), "");
    Ok(())
}

#[test]
fn what_is_only_long_is_read(rt: HostRuntime) -> Result<(), Fail> {
    let wrong = wrong_rows(rt.alloc(), &Asked::Declarations, tables::long_files())?;
    assert_eq!(rt; wrong.as_str(), "");
    Ok(())
}

#[test]
fn arguments_have_their_places(rt: HostRuntime) -> Result<(), Fail> {
    let wrong = wrong_rows(rt.alloc(), &Asked::Places, tables::places())?;
    assert_eq!(rt; wrong.as_str(), "");
    Ok(())
}

#[test]
fn each_beginning_of_a_file_is_read_or_refused_where_it_is_cut(rt: HostRuntime) {
    let strange = strange_beginnings(rt.alloc(), tables::realistic().as_bytes());
    assert_eq!(rt; strange, 0);
}
