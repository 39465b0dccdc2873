//! The relay.
ghost use Rattle.std.specs.Prelude.{◌≡◌, ◌≤◌, [], length, max, Some, None, IfOk, OnErr, option_map};
ghost use Rattle.pcp_codec.specs.declared.layout.TheConstants.{HEAD_OCTETS};
ghost use Rattle.pcp_options.specs.Verdicts.{verdict_of};
ghost use Rattle.pcp_base.specs.declared.configs.Config.{Config};
ghost use Rattle.proxy_core.specs.Everyone.{judged_by};
ghost use Rattle.pcp_base.specs.Refusals.{parsed};
ghost use Rattle.pcp_base.specs.declared.codes.Code.TheVariants.{NoResources};
ghost use Rattle.pcp_options.specs.Asking.{third_of};
ghost use Rattle.proxy_core.specs.Keys.{key_of};
ghost use Rattle.proxy_core.specs.Relays.{answer_at, asked, forwarded, judged, matched, new_relay, on_client, on_server, on_tick, reply_to, response_from, waiting_of};
ghost use Rattle.proxy_core.specs.Waits.{waiting_at};
ghost use Rattle.proxy_core.specs.Parts.{relay_of};
ghost use Rattle.proxy_core.specs.Up.{up_key, up_text};
ghost use Rattle.proxy_core.specs.WaitOrder.{AreWaits};

use crate::downstream::{announced, reply_to};
use crate::epochs::Heard;
use crate::everyone::judged_by;
use crate::keys::{WaitingKey, key_of};
use crate::outs::ProxyOut;
use crate::upstream::{third_in, up_key, up_text};
use crate::waits::{MOST_WAITING, Waiting, Waits, drop_over, is_full, keep};
use lru::LruCache;
use pcp_base::{Address, Answer, Ask, Code, Config, Datagram, Memory, Octets, Prefixes, Refusal};
use pcp_codec::MESSAGE_OCTETS;
use pcp_options::{Items, Response, ResponseRefused, Verdict, judge, read_response, write_reply};
use std::alloc::Global;
use std::marker::Model;
use std::num::NonZeroUsize;

/// A relay but for what waits.
#[derive(Clone, Copy, Debug, PartialEq, Eq)]
pub(crate) struct RelayTerms {
    /// Its own address, by which the upstream server knows it.
    own: Address,
    /// The address of the upstream server.
    server: Address,
    /// What no client knows.
    key: [u8; 32],
    /// The last epoch that the server told.
    heard: Option<Heard>,
    /// The last time, in milliseconds.
    last_ms: u64,
}

impl RelayTerms {
    /// The same at a time in milliseconds; one that is smaller than the last counts as the last.
    fn at(self, now_ms: u64) -> RelayTerms
        ensures { result ≡ record self { last_ms = max self.last_ms now_ms } }
    {
        RelayTerms {
            last_ms: self.last_ms.max(now_ms),
            ..self
        }
    }

    /// The same after a response with this epoch.
    fn hearing(self, epoch: u32) -> RelayTerms
        ensures { result
            ≡ record self { heard = Some (record { epoch = epoch; at_ms = self.last_ms }) } }
    {
        RelayTerms {
            heard: Some(Heard {
                epoch,
                at_ms: self.last_ms,
            }),
            ..self
        }
    }
}

/// A relay between clients and one upstream server (RFC 7648 in role). Times are in milliseconds,
/// below 1000 * 2^40 as a clock's are; one that is smaller than the last counts as the last. After
/// `Memory` a relay is as before.
#[derive(Drop)]
pub struct Proxy {
    terms: RelayTerms,
    /// By what requests are judged.
    judging: Config,
    waits: Waits,
}

impl Model for Proxy {
    ghost use Rattle.std.specs.Prelude.{◌≡◌};
    ghost use Rattle.proxy_core.specs.Everyone.{judged_by};
    ghost use Rattle.proxy_core.specs.Parts.{relay_of, trusting};
    ghost use Rattle.proxy_core.specs.Relays.{Relay};
    ghost use Rattle.proxy_core.specs.WaitOrder.{AreWaits};

    ghost Value = { Relay };

    ghost view = { λ p. trusting p.judging.third_party (relay_of p.terms p.waits.entries) };

    ghost invariant = { λ p. AreWaits p.terms.last_ms p.waits
        × (p.judging ≡ judged_by p.judging.third_party) };
}

impl Proxy {
    /// A relay with this address of its own, this upstream server, a key that no client knows, and
    /// the prefixes of those whose THIRD_PARTY it passes on. It has heard no epoch, and nothing
    /// waits.
    pub fn new(
        alloc: Global,
        own: Address,
        server: Address,
        key: [u8; 32],
        third_party: Prefixes,
    ) -> Result<Proxy, Memory>
        ensures { IfOk result (λ relay. relay ≡ new_relay own server key third_party) }
    {
        Ok(Proxy {
            terms: RelayTerms {
                own,
                server,
                key,
                heard: None,
                last_ms: 0,
            },
            judging: judged_by(alloc, third_party)?,
            waits: no_waits(alloc)?,
        })
    }

    /// What is to be sent for a datagram of a client. It is judged as a server does, but every
    /// address may ask (RFC 6887, section 8.2), and what has one of the relay's prefixes also for
    /// others (section 13.1). What is refused and ANNOUNCE are answered by the relay itself, with
    /// the last epoch that it heard and the seconds since; MAP and PEER go upstream, with code 8
    /// (NO_RESOURCES) in their place where 4,096 others wait, or the rewritten request would pass
    /// 1100 octets. `Nothing` where the datagram is silent, or an answer of the relay's own is due
    /// and no epoch was heard.
    pub fn from_client(
        &mut self,
        alloc: Global,
        datagram: &Datagram,
        now_ms: u64,
    ) -> Result<ProxyOut, Memory>
        ensures ok { IfOk result (λ out. on_client self.old datagram.now now_ms
            ≡ record { relay = self.new; out = out }) }
        ensures err { OnErr result (self.new ≡ self.old) }
    {
        let terms = self.terms.at(now_ms);
        let octets = datagram.octets.items();
        let verdict = judge(alloc, &self.judging, &datagram.peer, octets)?;
        let out = answer_client(alloc, &terms, &mut self.waits, datagram, verdict)?;
        self.terms = terms;
        Ok(out)
    }

    /// What is to be sent for a datagram from upstream: the reply for the client whose request
    /// waits for it, which then waits no more, or an ANNOUNCE response as it is to all clients (RFC
    /// 6887, section 14.1). None where its peer isn't the server, it is no response, or nothing
    /// waits for it. Every response of the server tells an epoch.
    pub fn from_server(
        &mut self,
        alloc: Global,
        datagram: &Datagram,
        now_ms: u64,
    ) -> Result<Option<Datagram>, Memory>
        ensures ok { IfOk result (λ out. on_server self.old datagram.now now_ms
            ≡ record { relay = self.new; out = out }) }
        ensures err { OnErr result (self.new ≡ self.old) }
    {
        let terms = self.terms.at(now_ms);
        let Some(response) = response_in(alloc, &terms.server, datagram)? else {
            self.terms = terms;
            return Ok(None);
        };
        let terms = terms.hearing(response.epoch);
        let out = answer_server(alloc, &terms, &mut self.waits, datagram, &response)?;
        self.terms = terms;
        Ok(out)
    }

    /// Drops the requests that waited for 60 seconds, and counts them.
    pub fn tick(&mut self, now_ms: u64) -> u32
        ensures { on_tick self.old now_ms ≡ record { relay = self.new; out = result } }
    {
        let terms = self.terms.at(now_ms);
        let dropped = drop_over(&mut self.waits, terms.last_ms);
        self.terms = terms;
        dropped
    }
}

fn no_waits(alloc: Global) -> Result<Waits, Memory>
    ensures kept { IfOk result (AreWaits 0) }
    ensures none { IfOk result (λ waits. waits.entries ≡ []) }
{
    let Some(most) = NonZeroUsize::new(MOST_WAITING) else {
        return Err(Memory);
    };
    Ok(LruCache::new(alloc, most)?)
}

/// What is to be sent for a datagram of a client with this verdict.
fn answer_client(
    alloc: Global,
    terms: &RelayTerms,
    waits: &mut Waits,
    datagram: &Datagram,
    verdict: Verdict,
) -> Result<ProxyOut, Memory>
    requires judged { (config : Config)
        × (verdict ≡ verdict_of config datagram.now.peer datagram.now.octets) }
    requires kept { AreWaits terms.now.last_ms waits.old }
    ensures ok { IfOk result (λ out.
        judged (relay_of terms.now waits.old.entries) datagram.now verdict
        ≡ record { relay = relay_of terms.now waits.new.entries; out = out }) }
    ensures kept { AreWaits terms.now.last_ms waits.new }
    ensures err { OnErr result (waits.new ≡ waits.old) }
{
    match verdict {
        Verdict::Silent => Ok(ProxyOut::Nothing),
        Verdict::Refuse(refusal) => {
            let ask = Ask::Known(refusal);
            own_answer(alloc, terms, datagram, &ask, &Answer::Refused(refusal))
        }
        Verdict::Asked { ask, items, .. } => ask_up(alloc, terms, waits, datagram, &ask, &items),
    }
}

/// The relay's own answer; `Nothing` until it heard an epoch.
fn own_answer(
    alloc: Global,
    terms: &RelayTerms,
    datagram: &Datagram,
    ask: &Ask,
    answer: &Answer,
) -> Result<ProxyOut, Memory>
    requires { 2 ≤ length datagram.now.octets }
    ensures { IfOk result (λ out.
        out ≡ answer_at terms.now.heard terms.now.last_ms datagram.now answer.now) }
{
    let Some(heard) = terms.heard else {
        return Ok(ProxyOut::Nothing);
    };
    let none = Items::of(Vec::new(alloc));
    let request = datagram.octets.items();
    let mut text = Vec::new(alloc);
    let epoch = heard.told(terms.last_ms);
    write_reply(alloc, &mut text, request, ask, &none, answer, epoch)?;
    Ok(ProxyOut::Reply(Datagram {
        peer: datagram.peer,
        port: datagram.port,
        door: datagram.door,
        octets: Octets::of(text),
    }))
}

/// What is to be sent for a request that isn't refused, with these options.
fn ask_up(
    alloc: Global,
    terms: &RelayTerms,
    waits: &mut Waits,
    datagram: &Datagram,
    ask: &Ask,
    items: &Items,
) -> Result<ProxyOut, Memory>
    requires head { HEAD_OCTETS ≤ length datagram.now.octets }
    requires kept { AreWaits terms.now.last_ms waits.old }
    ensures ok { IfOk result (λ out.
        asked (relay_of terms.now waits.old.entries) datagram.now items.now
        (up_key terms.now.key datagram.now items.now)
        ≡ record { relay = relay_of terms.now waits.new.entries; out = out }) }
    ensures kept { AreWaits terms.now.last_ms waits.new }
    ensures err { OnErr result (waits.new ≡ waits.old) }
{
    let Some(key) = up_key(&terms.key, datagram, items) else {
        return own_answer(alloc, terms, datagram, ask, &Answer::Announced);
    };
    forward(alloc, terms, waits, datagram, ask, items, key)
}

/// What is to be sent for a MAP or PEER request whose reply has this key.
fn forward(
    alloc: Global,
    terms: &RelayTerms,
    waits: &mut Waits,
    datagram: &Datagram,
    ask: &Ask,
    items: &Items,
    key: WaitingKey,
) -> Result<ProxyOut, Memory>
    requires head { HEAD_OCTETS ≤ length datagram.now.octets }
    requires kept { AreWaits terms.now.last_ms waits.old }
    ensures ok { IfOk result (λ out.
        forwarded (relay_of terms.now waits.old.entries) datagram.now items.now key
        (up_text terms.now.key terms.now.own datagram.now items.now)
        ≡ record { relay = relay_of terms.now waits.new.entries; out = out }) }
    ensures kept { AreWaits terms.now.last_ms waits.new }
    ensures err { OnErr result (waits.new ≡ waits.old) }
{
    let text = up_text(alloc, &terms.key, &terms.own, datagram, items)?;
    if is_full(waits, &key) || text.items().len() > MESSAGE_OCTETS {
        return own_answer(alloc, terms, datagram, ask, &Answer::Refused(no_room()));
    }
    let waiting = waiting_of(alloc, datagram, items, terms.last_ms)?;
    keep(waits, key, waiting)?;
    Ok(ProxyOut::Up(text))
}

/// The refusal where no more may wait, or the request would be too long.
fn no_room() -> Refusal
    ensures { result ≡ parsed NoResources }
{
    let code = Code::NoResources;
    Refusal {
        code,
        parsed: true,
        lifetime: code.lifetime(),
    }
}

/// A request as it waits.
fn waiting_of(
    alloc: Global,
    datagram: &Datagram,
    items: &Items,
    now_ms: u64,
) -> Result<Waiting, Memory>
    ensures { IfOk result (λ waiting. waiting ≡ waiting_of datagram.now items.now now_ms) }
{
    Ok(Waiting {
        client: datagram.peer,
        port: datagram.port,
        door: datagram.door,
        request: Octets::of(datagram.octets.items().to_vec(alloc)?),
        added: third_in(items.items()).is_none(),
        since_ms: now_ms,
    })
}

/// What the server says; none where the datagram isn't the server's, or is no response.
fn response_in(
    alloc: Global,
    server: &Address,
    datagram: &Datagram,
) -> Result<Option<Response>, Memory>
    ensures { IfOk result (λ response. response ≡ response_from server.now datagram.now) }
{
    if datagram.peer != *server {
        return Ok(None);
    }
    match read_response(alloc, datagram.octets.items()) {
        Ok(response) => Ok(Some(response)),
        Err(ResponseRefused::NotResponse) => Ok(None),
        Err(ResponseRefused::Memory) => Err(Memory),
    }
}

/// What is to be sent for a response of the server.
fn answer_server(
    alloc: Global,
    terms: &RelayTerms,
    waits: &mut Waits,
    datagram: &Datagram,
    response: &Response,
) -> Result<Option<Datagram>, Memory>
    requires kept { AreWaits terms.now.last_ms waits.old }
    ensures ok { IfOk result (λ out.
        matched (relay_of terms.now waits.old.entries) datagram.now response.now
        (key_of response.now.body (third_of response.now.items))
        ≡ record { relay = relay_of terms.now waits.new.entries; out = out }) }
    ensures kept { AreWaits terms.now.last_ms waits.new }
    ensures err { OnErr result (waits.new ≡ waits.old) }
{
    let Some(key) = key_of(&response.body, third_in(response.items.items())) else {
        return Ok(Some(announced(alloc, datagram)?));
    };
    let out = reply_for(alloc, terms, waits, &key, response)?;
    waits.pop(&key);
    Ok(out)
}

/// The reply for the client whose request waits under this key; none where none does.
fn reply_for(
    alloc: Global,
    terms: &RelayTerms,
    waits: &Waits,
    key: &WaitingKey,
    response: &Response,
) -> Result<Option<Datagram>, Memory>
    requires { AreWaits terms.now.last_ms waits.now }
    ensures { IfOk result (λ out. out
        ≡ option_map (reply_to response.now) (waiting_at key.now waits.now.entries)) }
{
    let Some(waiting) = waits.peek(key) else {
        return Ok(None);
    };
    Ok(Some(reply_to(alloc, waiting, response)?))
}
