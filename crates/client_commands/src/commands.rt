//! The commands that the words are.
ghost use Rattle.std.specs.Prelude.{◌≡◌, ◌↔◌, IsTrue, IfOk, is_some, map, option_map, string_bytes, true};
ghost use Rattle.clap.specs.Words.{found_of, rows_of};
ghost use Rattle.client_commands.specs.Commands.{IsAnnounceIn, IsCommand, IsMapIn, IsMapWanted, IsMapping, IsNamed, IsOnly, IsPeerIn, IsPeerWanted, IsTakenBy, IsTarget, value_in};
ghost use Rattle.client_commands.specs.Parts.{announce_with, map_wanted_of, map_with, mapping_of, peer_wanted_of, peer_with, target_of};
ghost use Rattle.client_commands.specs.Helps.{asks_help, has_text, is_help};
ghost use Rattle.client_commands.specs.Options.{announce_app, map_app, peer_app};

use crate::options::{announce_command, keep_command, map_command, peer_command};
use crate::parses::found_in;
use crate::values::{
    address_at, external_at, flag_at, lifetime_at, port_at, protocol_at, size_at, tries_at,
};
use clap::{ArgMatches, Command};
use pcp_base::{Address, Memory, Protocol};
use std::alloc::Global;

/// How many requests are sent at most, unless the words say it.
pub const DEFAULT_TRIES: u32 = 5;

/// The most requests that the words may ask for.
pub const MOST_TRIES: u32 = 20;

/// The lifetime in seconds that is asked for, unless the words say it.
pub const DEFAULT_LIFETIME: u32 = 7_200;

/// Whom a client asks, and how often.
#[derive(Clone, Copy, Debug, PartialEq, Eq)]
pub struct Target {
    pub server: Address,
    /// The client's own address.
    pub own: Address,
    /// How many requests are sent at most, 1 to [`MOST_TRIES`].
    pub tries: u32,
}

/// What both kinds of mapping ask for.
#[derive(Clone, Copy, Debug, PartialEq, Eq)]
pub struct Mapping {
    pub protocol: Protocol,
    /// The internal port, at least 1.
    pub port: u16,
    /// In seconds, at least 1.
    pub lifetime: u32,
    /// The external port that is suggested, 0 for none.
    pub external: u16,
}

/// A mapping that is asked for (RFC 6887, section 11).
#[derive(Clone, Copy, Debug, PartialEq, Eq)]
pub struct MapWanted {
    pub mapping: Mapping,
    /// How many ports, at least 1.
    pub size: u16,
    /// Whether another external port than the one suggested is to be refused.
    pub prefer: bool,
}

/// A mapping towards one remote peer that is asked for (RFC 6887, section 12).
#[derive(Clone, Copy, Debug, PartialEq, Eq)]
pub struct PeerWanted {
    pub mapping: Mapping,
    pub remote: Address,
    /// At least 1.
    pub remote_port: u16,
}

/// A command of the client.
#[derive(Clone, Copy, Debug, PartialEq, Eq)]
pub enum ClientCommand {
    /// `map`: a mapping is asked for.
    Map(Target, MapWanted),
    /// `peer`: a mapping towards one remote peer is asked for.
    Peer(Target, PeerWanted),
    /// `announce`: the server's epoch is asked for.
    Announce(Target),
}

/// The command that the words are: `map`, `peer` or `announce`, and its options. None exactly where the
/// first word is none of these, `clap` refuses the words behind it, or a value isn't one of its option.
pub fn command_of(alloc: Global, words: &[String]) -> Result<Option<ClientCommand>, Memory>
    ensures { IfOk result (IsOnly (IsCommand (map string_bytes words.now))) }
{
    if first_is(words, "map") {
        return map_of(alloc, words);
    }
    if first_is(words, "peer") {
        return peer_of(alloc, words);
    }
    if first_is(words, "announce") {
        return announce_of(alloc, words);
    }
    Ok(None)
}

/// Whether the first word is this name.
fn first_is(words: &[String], name: &str) -> bool
    ensures { IsTrue result ↔ IsNamed name.now (map string_bytes words.now) }
{
    match words.first() {
        Some(first) => first.as_str() == name,
        None => false,
    }
}

/// Whether a word asks for help: `--help` or `-h`.
pub fn is_help(word: &str) -> bool
    ensures { result ≡ is_help word.now }
{
    word == "--help" || word == "-h"
}

/// The text of a command's help, where the words are the name of one, or `keep`, and [`is_help`].
pub fn help_of(alloc: Global, words: &[String]) -> Result<Option<String>, Memory>
    ensures { IfOk result (λ help. is_some help ≡ asks_help (map string_bytes words.now)) }
{
    let [name, help] = words else {
        return Ok(None);
    };
    if !is_help(help) {
        return Ok(None);
    }
    text_of(alloc, name)
}

/// The text of the help of this command.
fn text_of(alloc: Global, name: &str) -> Result<Option<String>, Memory>
    ensures { IfOk result (λ help. is_some help ≡ has_text name.now) }
{
    if name == "keep" {
        return told_by(keep_command(alloc)?);
    }
    if name == "map" {
        return told_by(map_command(alloc)?);
    }
    if name == "peer" {
        return told_by(peer_command(alloc)?);
    }
    if name == "announce" {
        return told_by(announce_command(alloc)?);
    }
    Ok(None)
}

fn told_by(command: Command<'static>) -> Result<Option<String>, Memory>
    ensures { IfOk result (λ help. is_some help ≡ true) }
{
    let mut command = command;
    Ok(Some(command.render_help()?))
}

/// The `map` that the words are.
fn map_of(alloc: Global, words: &[String]) -> Result<Option<ClientCommand>, Memory>
    ensures { IfOk result (IsOnly (IsTakenBy map_app IsMapIn (map string_bytes words.now))) }
{
    let command = map_command(alloc)?;
    let found = found_in(command, words)?;
    match found {
        Some(matches) => Ok(map_in(&matches)),
        None => Ok(None),
    }
}

/// The `peer` that the words are.
fn peer_of(alloc: Global, words: &[String]) -> Result<Option<ClientCommand>, Memory>
    ensures { IfOk result (IsOnly (IsTakenBy peer_app IsPeerIn (map string_bytes words.now))) }
{
    let command = peer_command(alloc)?;
    let found = found_in(command, words)?;
    match found {
        Some(matches) => Ok(peer_in(&matches)),
        None => Ok(None),
    }
}

/// The `announce` that the words are.
fn announce_of(alloc: Global, words: &[String]) -> Result<Option<ClientCommand>, Memory>
    ensures { IfOk result
        (IsOnly (IsTakenBy announce_app IsAnnounceIn (map string_bytes words.now))) }
{
    let command = announce_command(alloc)?;
    let found = found_in(command, words)?;
    match found {
        Some(matches) => Ok(announce_in(&matches)),
        None => Ok(None),
    }
}

fn map_in(matches: &ArgMatches<'_>) -> Option<ClientCommand>
    ensures { IsOnly (IsMapIn (rows_of (found_of matches.now))) result }
{
    map_with(target_in(matches), map_wanted_in(matches))
}

fn map_with(target: Option<Target>, wanted: Option<MapWanted>) -> Option<ClientCommand>
    ensures { result ≡ map_with target wanted }
{
    Some(ClientCommand::Map(target?, wanted?))
}

fn peer_in(matches: &ArgMatches<'_>) -> Option<ClientCommand>
    ensures { IsOnly (IsPeerIn (rows_of (found_of matches.now))) result }
{
    peer_with(target_in(matches), peer_wanted_in(matches))
}

fn peer_with(target: Option<Target>, wanted: Option<PeerWanted>) -> Option<ClientCommand>
    ensures { result ≡ peer_with target wanted }
{
    Some(ClientCommand::Peer(target?, wanted?))
}

fn announce_in(matches: &ArgMatches<'_>) -> Option<ClientCommand>
    ensures { IsOnly (IsAnnounceIn (rows_of (found_of matches.now))) result }
{
    announce_with(target_in(matches))
}

fn announce_with(target: Option<Target>) -> Option<ClientCommand>
    ensures { result ≡ announce_with target }
{
    Some(ClientCommand::Announce(target?))
}

/// The value of an option.
fn value_in<'a>(matches: &ArgMatches<'a>, name: &str) -> Option<&'a str>
    ensures { option_map (λ s. s.now) result
        ≡ value_in (rows_of (found_of matches.now)) name.now }
{
    matches.get_str(name)
}

fn target_in(matches: &ArgMatches<'_>) -> Option<Target>
    ensures { IsOnly (IsTarget (value_in (rows_of (found_of matches.now)))) result }
{
    target_of(
        address_at(value_in(matches, "server")),
        address_at(value_in(matches, "own")),
        tries_at(value_in(matches, "tries")),
    )
}

fn target_of(server: Option<Address>, own: Option<Address>, tries: Option<u32>) -> Option<Target>
    ensures { result ≡ target_of server own tries }
{
    Some(Target {
        server: server?,
        own: own?,
        tries: tries?,
    })
}

fn map_wanted_in(matches: &ArgMatches<'_>) -> Option<MapWanted>
    ensures { IsOnly (IsMapWanted (value_in (rows_of (found_of matches.now)))) result }
{
    map_wanted_of(
        mapping_in(matches),
        size_at(value_in(matches, "size")),
        flag_at(value_in(matches, "prefer-failure")),
    )
}

fn map_wanted_of(mapping: Option<Mapping>, size: Option<u16>, prefer: bool) -> Option<MapWanted>
    ensures { result ≡ map_wanted_of mapping size prefer }
{
    Some(MapWanted {
        mapping: mapping?,
        size: size?,
        prefer,
    })
}

fn peer_wanted_in(matches: &ArgMatches<'_>) -> Option<PeerWanted>
    ensures { IsOnly (IsPeerWanted (value_in (rows_of (found_of matches.now)))) result }
{
    peer_wanted_of(
        mapping_in(matches),
        address_at(value_in(matches, "remote")),
        port_at(value_in(matches, "remote-port")),
    )
}

fn peer_wanted_of(
    mapping: Option<Mapping>,
    remote: Option<Address>,
    remote_port: Option<u16>,
) -> Option<PeerWanted>
    ensures { result ≡ peer_wanted_of mapping remote remote_port }
{
    Some(PeerWanted {
        mapping: mapping?,
        remote: remote?,
        remote_port: remote_port?,
    })
}

fn mapping_in(matches: &ArgMatches<'_>) -> Option<Mapping>
    ensures { IsOnly (IsMapping (value_in (rows_of (found_of matches.now)))) result }
{
    mapping_of(
        protocol_at(value_in(matches, "protocol")),
        port_at(value_in(matches, "port")),
        lifetime_at(value_in(matches, "lifetime")),
        external_at(value_in(matches, "external-port")),
    )
}

fn mapping_of(
    protocol: Option<Protocol>,
    port: Option<u16>,
    lifetime: Option<u32>,
    external: Option<u16>,
) -> Option<Mapping>
    ensures { result ≡ mapping_of protocol port lifetime external }
{
    Some(Mapping {
        protocol: protocol?,
        port: port?,
        lifetime: lifetime?,
        external: external?,
    })
}
