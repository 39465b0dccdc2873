//! The reply to a request.
ghost use Rattle.std.specs.Prelude.{◌≡◌, ◌<◌, ◌≤◌, length, Some, IfOk};
ghost use Rattle.std.specs.List.{slice_get};
ghost use Rattle.std.specs.Option.{option_map};
ghost use Rattle.pcp_base.specs.Epoch.{epoch_of};
ghost use Rattle.lease_histories.specs.Entries.{reply_text_of};

use natpmp_front::{is_front, write_front};
use pcp_base::{Address, Ask, Config, Memory, Octets, epoch};
use pcp_options::{Items, write_reply};
use shard_book::DatedAnswer;
use std::alloc::Global;

/// The external address at this place.
pub fn address_at(config: &Config, place: u32) -> Address
    requires { place < length config.now.externals }
    ensures { option_map (λ x. x.address) (slice_get config.now.externals place) ≡ Some result }
{
    config.externals.items()[place as usize].address
}

/// The reply to a request of these octets that was answered so, to an external address.
pub fn reply_of(
    alloc: Global,
    request: &[u8],
    address: &Address,
    ask: &Ask,
    items: &Items,
    answer: &DatedAnswer,
) -> Result<Octets, Memory>
    requires { 2 ≤ length request.now }
    ensures { IfOk result (λ reply. reply ≡ reply_text_of request.now address.now items.now
        answer.now.answer (epoch_of answer.now.moment answer.now.base)) }
{
    let mut text = Vec::new(alloc);
    let told = epoch(answer.moment, answer.base);
    if is_front(request) {
        write_front(alloc, &mut text, request, address, &answer.answer, told)?;
        return Ok(Octets::of(text));
    }
    write_reply(alloc, &mut text, request, ask, items, &answer.answer, told)?;
    Ok(Octets::of(text))
}
