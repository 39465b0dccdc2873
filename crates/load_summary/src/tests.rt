//! Tests: summaries.
use crate::{LoadCounts, LoadKind, write_summary};
use sha2::{Digest, Sha256};
use std::test::Fail;

// Of no request; the digest is that of no octets (FIPS 180-4).
const NONE: &str =
    "requests 0\ngranted 0\nrenewed 0\ndeleted 0\nabsent 0\nrefused 0\nleases 0\nowned 0\n\
    digest e3b0c44298fc1c149afbf4c8996fb92427ae41e4649b934ca495991b7852b855\n";

#[test]
fn no_requests_have_a_summary(rt: HostRuntime) -> Result<(), Fail> {
    let digest = Sha256::new().finalize();
    let mut text = Vec::new(rt.alloc());
    write_summary(rt.alloc(), &mut text, LoadCounts::none(), 0, 0, &digest)?;
    assert!(rt; text.as_slice() == NONE.as_bytes());
    Ok(())
}

#[test]
fn each_kind_counts(rt: HostRuntime) -> Result<(), Fail> {
    let counts = LoadCounts::none()
        .with(LoadKind::Granted)
        .with(LoadKind::Renewed)
        .with(LoadKind::Granted);
    assert_eq!(rt; counts.requests, 3);
    assert_eq!(rt; counts.granted, 2);
    assert_eq!(rt; counts.renewed, 1);
    Ok(())
}
