//! Which of what comes is told.
ghost use Rattle.std.specs.Prelude.{◌≡◌, ◌++◌, OnOk};
ghost use Rattle.keep_runs.specs.News.{epoch_line, is_lost, is_new, is_news, is_other, is_same, loss_line, nothing_told, told_after, told_with_epoch, told_with_loss};

use client_core::{EpochFound, HeldLease, What};
use pcp_base::Memory;

/// What was told last.
#[derive(Clone, Copy)]
pub(crate) struct Told {
    /// The lease; none before the first, and behind a loss, a refusal or an invalid epoch.
    pub(crate) lease: Option<HeldLease>,
    /// The number of the code, where the last line told a refusal.
    pub(crate) code: Option<u8>,
}

impl Told {
    /// Nothing.
    pub(crate) fn nothing() -> Told
        ensures { result ≡ nothing_told }
    {
        Told {
            lease: None,
            code: None,
        }
    }

    /// What is told last once an epoch is found so.
    pub(crate) fn with_epoch(self, found: EpochFound) -> Told
        ensures { result ≡ told_with_epoch found self }
    {
        match found {
            EpochFound::Unread => self,
            EpochFound::Valid => self,
            EpochFound::Invalid => Told::nothing(),
        }
    }

    /// Whether what was said is told, of a client that holds this lease then.
    pub(crate) fn is_news(&self, lease: Option<HeldLease>, what: What) -> bool
        ensures { result ≡ is_news self.now lease what }
    {
        match what {
            What::NotMine => false,
            What::Told => false,
            What::Taken(_id) => is_new(self.lease, lease),
            What::ErrorFor(_id, code, _seconds) => is_other(self.code, code.number()),
        }
    }

    /// What is told last then.
    pub(crate) fn after(self, lease: Option<HeldLease>, what: What) -> Told
        ensures { result ≡ told_after self lease what }
    {
        match what {
            What::NotMine => self,
            What::Told => self,
            What::Taken(_id) => {
                if is_new(self.lease, lease) {
                    Told { lease, code: None }
                } else {
                    self
                }
            }
            What::ErrorFor(_id, code, _seconds) => Told {
                lease: None,
                code: Some(code.number()),
            },
        }
    }

    /// What is told last where a lease is lost, or isn't.
    pub(crate) fn with_loss(self, lost: bool) -> Told
        ensures { result ≡ told_with_loss lost self }
    {
        if lost { Told::nothing() } else { self }
    }
}

/// Whether they differ in nothing but their end.
fn is_same(a: &HeldLease, b: &HeldLease) -> bool
    ensures { result ≡ is_same a.now b.now }
{
    a.address == b.address && a.external == b.external && a.count == b.count
}

fn is_new(told: Option<HeldLease>, lease: Option<HeldLease>) -> bool
    ensures { result ≡ is_new told lease }
{
    match lease {
        Some(lease) => match told {
            Some(told) => !is_same(&told, &lease),
            None => true,
        },
        None => false,
    }
}

fn is_other(told: Option<u8>, code: u8) -> bool
    ensures { result ≡ is_other told code }
{
    match told {
        Some(told) => told != code,
        None => true,
    }
}

/// Whether a tick dropped the lease.
pub(crate) fn is_lost(before: Option<HeldLease>, now: Option<HeldLease>) -> bool
    ensures { result ≡ is_lost before now }
{
    before.is_some() && now.is_none()
}

/// Appends the line for an epoch.
pub(crate) fn push_epoch(lines: &mut Vec<u8>, found: EpochFound) -> Result<(), Memory>
    ensures { OnOk result (lines.new.items ≡ lines.old.items ++ epoch_line found) }
{
    match found {
        EpochFound::Unread => Ok(()),
        EpochFound::Valid => Ok(()),
        EpochFound::Invalid => {
            lines.extend_from_slice(b"invalid\n")?;
            Ok(())
        }
    }
}

/// Appends the line for a loss, where there is one.
pub(crate) fn push_loss(lines: &mut Vec<u8>, lost: bool) -> Result<(), Memory>
    ensures { OnOk result (lines.new.items ≡ lines.old.items ++ loss_line lost) }
{
    if !lost {
        return Ok(());
    }
    lines.extend_from_slice(b"lost\n")?;
    Ok(())
}
