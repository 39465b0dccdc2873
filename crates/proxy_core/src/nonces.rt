//! The nonces by which a relay asks upstream.
ghost use Rattle.std.specs.Prelude.{◌≡◌, ◌≤◌, length, take};
ghost use Rattle.sha2.specs.Sha256.{sha256};
ghost use Rattle.proxy_core.specs.Nonces.{upstream_nonce};

use pcp_base::{Address, Nonce};
use sha2::{Digest, Sha256};

/// The nonce by which a relay with this key asks upstream for the client: the first 12 octets of
/// SHA-256 (FIPS 180-4) over the key, the client's address and the client's nonce.
pub fn upstream_nonce(key: &[u8; 32], client: &Address, nonce: &Nonce) -> Nonce
    ensures { result ≡ upstream_nonce key.now client.now nonce.now }
{
    let mut hasher = Sha256::new();
    hasher.update(&key[..]);
    hasher.update(&client.0[..]);
    hasher.update(&nonce.0[..]);
    Nonce(first_octets(&hasher.finalize()))
}

fn first_octets(digest: &[u8; 32]) -> [u8; 12]
    ensures { result ≡ take 12 digest.now }
{
    let mut octets = [0; 12];
    octets.copy_from_slice(&digest[..12]);
    octets
}
