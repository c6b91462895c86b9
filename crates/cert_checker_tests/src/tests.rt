// Certificates of covers are closed for the programs with their frees.
use crate::certificates::{FREED, is_same, told};
use crate::changes::{Change, changed};
use crate::covers::{certify, check_for};
use cert_checker::CheckRefusal;
use std::alloc::Global;
use std::test::Fail;
use typestate_fixpoint_tests::programs;

/// Programs that have a cover.
const COVERED: [&[u8]; 20] = [
    programs::BRANCH,
    programs::BREAK_AND_CONTINUE,
    programs::FOR_FORMS,
    programs::CALLS_IN_TWO_CONTEXTS,
    programs::RETURN_OF_A_CALL,
    programs::FIELDS_AND_ALIASES,
    programs::AN_UNREACHED_FUNCTION,
    programs::ELSE_IF,
    programs::OWN_FREES_AND_BLOCKS,
    programs::WRAPPER,
    programs::SWAP_AND_COMPARE,
    programs::CLOSING_BRACE,
    programs::TWO_FREES,
    programs::FREE_BEFORE_A_READ,
    programs::TWO_LEAKS,
    programs::NEW_IN_EACH_TURN,
    programs::BUFFER,
    programs::UNSET_ELSEWHERE,
    programs::ENDLESS,
    programs::TWO_NAMES,
];

/// Whether the program of a text has a cover, whose certificate is closed.
fn is_closed(alloc: Global, text: &[u8]) -> Result<bool, Fail> {
    match certify(alloc, text)? {
        None => Ok(false),
        Some(whole) => Ok(whole.check(alloc) == Ok(())),
    }
}

#[test]
fn certificates_of_covers_are_closed(rt: HostRuntime) -> Result<(), Fail> {
    for (place, text) in COVERED.iter().enumerate() {
        assert!(rt;
            is_closed(rt.alloc(), text)?,
            "of the text of place {place}"
        );
    }
    Ok(())
}

/// Whether the certificate that is made for the leak is the one that is told.
fn makes_the_told_one(alloc: Global) -> Result<bool, Fail> {
    match certify(alloc, programs::BRANCH)? {
        None => Ok(false),
        Some(whole) => Ok(is_same(&whole.cert, &told(alloc)?)),
    }
}

/// Whether that which is told is closed for the text with its free.
fn is_told_closed(alloc: Global) -> Result<bool, Fail> {
    let found = check_for(alloc, FREED, told(alloc)?)?;
    Ok(found == Ok(()))
}

/// Whether it is irregular with a set of facts that has one number too many.
fn is_wide_irregular(alloc: Global) -> Result<bool, Fail> {
    let wide = changed(alloc, told(alloc)?, Change::Facts(17, 3, &[0, 1]))?;
    let found = check_for(alloc, FREED, wide)?;
    Ok(found == Err(CheckRefusal::NotClosed(0, 1)))
}

#[test]
fn the_told_certificate_is_closed(rt: HostRuntime) -> Result<(), Fail> {
    let alloc = rt.alloc();
    assert!(rt; makes_the_told_one(alloc)?);
    assert!(rt; is_told_closed(alloc)?);
    assert!(rt; is_wide_irregular(alloc)?);
    Ok(())
}
