//! Tests: which words are tried as a `watch`; a side that is there, and one that is missing.
use crate::files::JournalReader;
use crate::may_watch;
use std::fs::File;
use std::io::Write;
use std::test::Fail;

#[test]
fn words_are_told_apart(rt: HostRuntime) -> Result<(), Fail> {
    let mut words = Vec::new(rt.alloc());
    assert!(rt; !may_watch(&words));
    words.push(String::from_str(rt.alloc(), "watch")?)?;
    assert!(rt; may_watch(&words));
    Ok(())
}

// Makes a file with these octets.
fn make(rt: &HostRuntime, path: &str, octets: &[u8]) -> Result<(), Fail> {
    let mut file = File::create(rt, path)?;
    file.write_all(octets)?;
    Ok(())
}

// Both sides of a journal in this folder.
fn reader(rt: &HostRuntime) -> Result<JournalReader<&HostRuntime>, Fail> {
    let a = String::from_str(rt.alloc(), "./0a")?;
    let b = String::from_str(rt.alloc(), "./0b")?;
    Ok(JournalReader::new(rt, a, b))
}

#[test]
fn sides_are_copied_twice(rt: HostRuntime) -> Result<(), Fail> {
    make(&rt, "./0a", b"abc")?;
    let reader = reader(&rt)?;
    let Ok((a, b)) = reader.look(rt.alloc()) else {
        assert!(rt; false, "no look");
        return Ok(());
    };
    let octets = b"abc".as_slice();
    assert!(rt; a.first.items() == octets && a.second.items() == octets);
    assert!(rt; a.before.octets.items() == octets && a.before.inode == a.behind.inode);
    assert!(rt; b.first.items().is_empty() && b.before.inode == 0);
    Ok(())
}
