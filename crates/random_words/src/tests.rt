//! Tests: words of a list and of sources, and how they fail.
use crate::{Entropy, FileEntropy, ListEntropy, SourceEntropy};
use pcp_base::Memory;
use pcp_io::MemorySource;
use std::alloc::Global;
use std::test::Fail;

// What the first four calls give.
type Four = (Option<u32>, Option<u32>, Option<u32>, Option<u32>);

// The words of a list of two; the call that fails, 9 for none; what the first four calls give.
static LISTS: [(u64, Four); 4] = [
    (9, (Some(7), Some(8), Some(8), Some(8))),
    (0, (None, Some(7), Some(8), Some(8))),
    (1, (Some(7), None, Some(8), Some(8))),
    (3, (Some(7), Some(8), Some(8), None)),
];

fn list_failing(alloc: Global, failing: u64) -> Result<ListEntropy, Memory> {
    let mut words = Vec::new(alloc);
    words.push(7)?;
    words.push(8)?;
    let mut entropy = ListEntropy::new(alloc, words)?;
    entropy.fail_at(alloc, failing)?;
    Ok(entropy)
}

fn four_words<E: Entropy>(entropy: &mut E) -> Four {
    let first = entropy.word().ok();
    let second = entropy.word().ok();
    let third = entropy.word().ok();
    let fourth = entropy.word().ok();
    (first, second, third, fourth)
}

#[test]
fn lists_repeat_their_last_word(rt: HostRuntime) -> Result<(), Fail> {
    for (failing, expected) in &LISTS {
        let Ok(mut entropy) = list_failing(rt.alloc(), *failing) else {
            return Err("no memory".into());
        };
        assert!(rt; four_words(&mut entropy) == *expected, "{failing}");
        assert!(rt; entropy.starved() == 0);
    }
    Ok(())
}

// The read of a source of nine octets that fails, 9 for none, and what the first four calls give.
static SOURCES: [(u64, Four); 3] = [
    (9, (Some(0x3031_3233), Some(0x3435_3637), None, None)),
    (0, (None, Some(0x3031_3233), Some(0x3435_3637), None)),
    (1, (Some(0x3031_3233), None, Some(0x3435_3637), None)),
];

fn source_failing(alloc: Global, failing: u64) -> Result<MemorySource, Memory> {
    let mut source = MemorySource::new(alloc, b"012345678".to_vec(alloc)?)?;
    source.fail_at(alloc, failing)?;
    Ok(source)
}

#[test]
fn sources_give_four_octets_a_word(rt: HostRuntime) -> Result<(), Fail> {
    for (failing, expected) in &SOURCES {
        let Ok(source) = source_failing(rt.alloc(), *failing) else {
            return Err("no memory".into());
        };
        let mut entropy = SourceEntropy::of(source);
        assert!(rt; four_words(&mut entropy) == *expected, "{failing}");
    }
    Ok(())
}

#[test]
fn files_give_words(rt: HostRuntime) -> Result<(), Fail> {
    let path = String::from_str(rt.alloc(), "/dev/urandom")?;
    let mut entropy = FileEntropy::new(rt.clone()?, path);
    let (first, second, third, fourth) = four_words(&mut entropy);
    assert!(rt; first.is_some() && second.is_some() && third.is_some() && fourth.is_some());
    assert!(rt; first != second || second != third || third != fourth);
    Ok(())
}

#[test]
fn missing_files_fail(rt: HostRuntime) -> Result<(), Fail> {
    let path = String::from_str(rt.alloc(), "there is none")?;
    let mut entropy = FileEntropy::new(rt.clone()?, path);
    assert!(rt; four_words(&mut entropy) == (None, None, None, None));
    Ok(())
}
