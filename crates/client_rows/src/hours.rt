//! A mapping that is kept over hours.
use crate::clients::OWN;
use crate::keeping::Keeper;
use crate::wants::{Port, SERVER, announced, ask, reply};
use pcp_base::{Datagram, Octets};
use std::alloc::Global;
use std::test::Fail;

fn from_server(octets: Vec<u8>) -> Datagram {
    Datagram {
        peer: SERVER,
        port: 5351,
        door: 0,
        octets: Octets::of(octets),
    }
}

// What is asked at this second is granted for an hour, at this epoch; gives whether something was.
fn is_asked(keeper: &mut Keeper, alloc: Global, second: u32, epoch: u32) -> Result<bool, Fail> {
    let now = 1000 * u64::from(second);
    if keeper.due(alloc, now, 0)?.is_none() {
        return Ok(false);
    }
    let octets = reply(alloc, 0, epoch, &Port(5000, 3600, 1024, 1))?;
    keeper.hear(alloc, &from_server(octets), now, 0)?;
    Ok(true)
}

fn begun(alloc: Global) -> Result<Keeper, Fail> {
    let ask = ask(alloc, 5000)?;
    Ok(Keeper::begin(alloc, SERVER, OWN, ask, 0)?)
}

// Whether over three hours it always has its mapping, and asks at once and then whenever half of an hour is
// over: so 6 times, since the word is 0.
fn is_kept(alloc: Global) -> Result<bool, Fail> {
    let mut keeper = begun(alloc)?;
    for second in 0..10_800 {
        let asked = is_asked(&mut keeper, alloc, second, second)?;
        if asked != (second % 1800 == 0) || keeper.mapping().is_none() {
            return Ok(false);
        }
    }
    Ok(true)
}

#[test]
fn a_mapping_is_kept(rt: HostRuntime) -> Result<(), Fail> {
    assert!(rt; is_kept(rt.alloc())?);
    Ok(())
}

// Whether a host that sleeps until something is due asks at the same times.
fn sleeps(alloc: Global) -> Result<bool, Fail> {
    let mut keeper = begun(alloc)?;
    for turn in 0..6u32 {
        let second = turn.wrapping_mul(1800);
        if keeper.next_due() != Some(1000 * u64::from(second)) {
            return Ok(false);
        }
        if !is_asked(&mut keeper, alloc, second, second)? {
            return Ok(false);
        }
    }
    Ok(true)
}

#[test]
fn a_host_sleeps(rt: HostRuntime) -> Result<(), Fail> {
    assert!(rt; sleeps(rt.alloc())?);
    Ok(())
}

#[test]
fn a_loss_is_mended(rt: HostRuntime) -> Result<(), Fail> {
    let alloc = rt.alloc();
    let mut keeper = begun(alloc)?;
    let asked = is_asked(&mut keeper, alloc, 100, 100)?;
    assert!(rt; asked && keeper.mapping().is_some());
    // The server began anew.
    keeper.hear(alloc, &from_server(announced(alloc, 1)?), 200_000, 0)?;
    assert!(rt; keeper.mapping().is_none());
    let asked = is_asked(&mut keeper, alloc, 200, 1)?;
    assert!(rt; asked && keeper.mapping().is_some());
    Ok(())
}

// By this word for an invalid epoch it asks anew so many milliseconds behind it.
fn asks_anew_after(alloc: Global, word: u32) -> Result<Option<u64>, Fail> {
    let mut keeper = begun(alloc)?;
    let _asked = is_asked(&mut keeper, alloc, 0, 100)?;
    keeper.hear(alloc, &from_server(announced(alloc, 1)?), 60_000, word)?;
    Ok(keeper.next_due().map(|due| due.wrapping_sub(60_000)))
}

// How many of 1,000 words ask in each of five seconds.
fn spread(alloc: Global) -> Result<[u32; 5], Fail> {
    let mut counts = [0u32; 5];
    for place in 0..1_000u32 {
        let after = asks_anew_after(alloc, place.wrapping_mul(0x9E37_79B9))?;
        let second = after.map_or(5, |after| after / 1_000);
        if let Some(count) = counts.get_mut(second as usize) {
            *count = count.wrapping_add(1);
        }
    }
    Ok(counts)
}

// So many clients that a server lost don't ask at once (RFC 6887, section 14.1.3).
#[test]
fn clients_are_spread(rt: HostRuntime) -> Result<(), Fail> {
    let counts = spread(rt.alloc())?;
    assert!(rt;
        counts.iter().all(|count| (180..=220).contains(count)),
        "{counts:?}"
    );
    Ok(())
}
