//! The load that a number makes.
ghost use Rattle.std.specs.Prelude.{◌≡◌, ℕ, ◌+◌, ◌≤◌, [], vec_len, OnOk, OnErr, IfOk};
ghost use Rattle.std.specs.Vec.{vec_capacity};
ghost use Rattle.rand_chacha.specs.ChaCha.{next_word};
ghost use Rattle.pcp_script.specs.Loads.{load_at, load_host, load_lifetime, load_port, load_protocol, load_request, request_at};
ghost use Rattle.pcp_script.specs.declared.load.TheConstants.{REQUEST_OCTETS};

use pcp_base::{Address, Datagram, Memory, Octets, Protocol};
use rand_chacha::ChaCha8Rng;
use rand_core::SeedableRng;
use rand_core::utils::NextWord;
use std::alloc::Global;
use std::marker::Model;

/// The UDP port from which every request of a load comes.
pub const LOAD_PORT: u16 = 40_000;

/// How many octets each request of a load has.
const REQUEST_OCTETS: usize = 60;

/// MAP requests of the hosts of 10.0.0.0/22, one after the other, that a number makes: each takes three
/// words of ChaCha8, whose key is the number.
#[derive(Drop)]
pub struct Load {
    words: ChaCha8Rng,
}

impl Model for Load {
    ghost use Rattle.rand_chacha.specs.ChaCha.{ChaCha};

    ghost Value = { ChaCha };

    ghost view = { λ l. l.words };
}

// The words of one request.
#[derive(Clone, Copy)]
struct Draw {
    first: u32,
    second: u32,
    third: u32,
}

impl Load {
    /// The load of a number, before its first request.
    pub fn new(number: u64) -> Load
        ensures { result ≡ load_at number 0 }
    {
        let mut seed = [0; 32];
        seed[..8].copy_from_slice(&number.to_le_bytes());
        Load {
            words: ChaCha8Rng::from_seed(seed),
        }
    }

    /// The next request, which is the same again after want of memory.
    pub fn next(&mut self, alloc: Global) -> Result<Datagram, Memory>
        ensures request { (number : ℕ) (i : ℕ) → self.old ≡ load_at number i
            → IfOk result (λ from. from ≡ request_at number i) }
        ensures moved { (number : ℕ) (i : ℕ) → self.old ≡ load_at number i
            → OnOk result (self.new ≡ load_at number (i + 1)) }
        ensures unchanged { OnErr result (self.new ≡ self.old) }
    {
        self.next_in(Vec::new(alloc))
    }

    /// The next request, whose octets stand in place of those of a vector, for a caller that needs no
    /// request but the last. It is the same again after want of memory.
    pub fn next_in(&mut self, mut octets: Vec<u8>) -> Result<Datagram, Memory>
        ensures request { (number : ℕ) (i : ℕ) → self.old ≡ load_at number i
            → IfOk result (λ from. from ≡ request_at number i) }
        ensures moved { (number : ℕ) (i : ℕ) → self.old ≡ load_at number i
            → OnOk result (self.new ≡ load_at number (i + 1)) }
        ensures unchanged { OnErr result (self.new ≡ self.old) }
    {
        // The memory is taken before the words are.
        octets.clear();
        octets.reserve(REQUEST_OCTETS)?;
        let draw = draw_of(&mut self.words);
        Ok(request_of(octets, draw))
    }
}

fn draw_of(words: &mut ChaCha8Rng) -> Draw
    ensures first { result.first ≡ (next_word 4 words.old).0 }
    ensures second { result.second ≡ (next_word 4 (next_word 4 words.old).1).0 }
    ensures third { result.third ≡ (next_word 4 (next_word 4 (next_word 4 words.old).1).1).0 }
    ensures left { words.new ≡ (next_word 4 (next_word 4 (next_word 4 words.old).1).1).1 }
{
    let first = words.next_word();
    let second = words.next_word();
    let third = words.next_word();
    Draw {
        first,
        second,
        third,
    }
}

// The request that three words make, in a vector that is empty and has room for it.
fn request_of(mut octets: Vec<u8>, draw: Draw) -> Datagram
    requires empty { octets.items ≡ [] }
    requires start { vec_len octets ≡ 0 }
    requires room { REQUEST_OCTETS ≤ vec_capacity octets }
    ensures { result ≡ load_request draw.first draw.second draw.third }
{
    // With room for all of them it doesn't fail.
    let _appended = octets.extend_from_slice(&octets_of(draw));
    let [a, b, c, d] = host_of(draw.first);
    Datagram {
        peer: Address::v4(a, b, c, d),
        port: LOAD_PORT,
        door: 0,
        octets: Octets::of(octets),
    }
}

// The octets of the request that three words make. It suggests nothing.
fn octets_of(draw: Draw) -> [u8; REQUEST_OCTETS]
    ensures { result ≡ (load_request draw.first draw.second draw.third).octets }
{
    let [a, b, c, d] = host_of(draw.first);
    let [p0, p1] = port_of(draw.second).to_be_bytes();
    let [l0, l1, l2, l3] = lifetime_of(draw.third).to_be_bytes();
    let number = protocol_of(draw.second).number();
    [
        2, 1, 0, 0, l0, l1, l2, l3, 0, 0, 0, 0, 0, 0, 0, 0, 0, 0, 255, 255, a, b, c, d, a, b, c, d,
        p0, p1, 0, 0, 0, 0, 0, 0, number, 0, 0, 0, p0, p1, 0, 0, 0, 0, 0, 0, 0, 0, 0, 0, 0, 0, 0,
        0, 0, 0, 0, 0,
    ]
}

fn host_of(word: u32) -> [u8; 4]
    ensures { result ≡ load_host word }
{
    [10, 0, (word / 256 % 4) as u8, (word % 256) as u8]
}

fn port_of(word: u32) -> u16
    ensures { result ≡ load_port word }
{
    1024 + (word % 512) as u16
}

fn protocol_of(word: u32) -> Protocol
    ensures { result ≡ load_protocol word }
{
    if word / 512 % 2 == 0 {
        Protocol::Udp
    } else {
        Protocol::Tcp
    }
}

fn lifetime_of(word: u32) -> u32
    ensures { result ≡ load_lifetime word }
{
    match word % 4 {
        0 => 0,
        1 => 120,
        2 => 3_600,
        _ => 86_400,
    }
}
