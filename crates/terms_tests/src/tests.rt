//! What is answered.

use crate::checks::{append_checks, declare, fill};
use crate::substitutions::{copies_are_same, expands, goes_on_at_a_replaced_head};
use basics::Bytes;
use lf_terms::Signature;
use std::test::Fail;

#[test]
fn entries_are_added_and_terms_checked(rt: HostRuntime) -> Result<(), Fail> {
    let mut sig = Signature::new(rt.alloc());
    let mut text = Bytes::new(rt.alloc());
    declare(rt.alloc(), &mut sig, &mut text)?;
    append_checks(rt.alloc(), &sig, &mut text)?;
    assert_eq!(rt; text.as_slice(), b"+++++tiwell;ill 0;ill;".as_slice());
    Ok(())
}

#[test]
fn a_signature_is_full_after_65535_entries(rt: HostRuntime) -> Result<(), Fail> {
    let mut sig = Signature::new(rt.alloc());
    let mut text = Bytes::new(rt.alloc());
    fill(rt.alloc(), &mut sig, &mut text)?;
    assert_eq!(rt; text.as_slice(), b"ff".as_slice());
    Ok(())
}

#[test]
fn substitution_goes_on_at_a_replaced_head(rt: HostRuntime) -> Result<(), Fail> {
    assert_eq!(rt; goes_on_at_a_replaced_head(rt.alloc())?, true);
    Ok(())
}

#[test]
fn constants_have_eta_long_forms(rt: HostRuntime) -> Result<(), Fail> {
    assert_eq!(rt; expands(rt.alloc())?, true);
    Ok(())
}

#[test]
fn copies_equal_their_sources(rt: HostRuntime) -> Result<(), Fail> {
    assert_eq!(rt; copies_are_same(rt.alloc())?, true);
    Ok(())
}
