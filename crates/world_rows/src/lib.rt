//! Tests of clients and a relay of a server that loses its leases.
#![tactic(auto)]

#[cfg(test)]
mod epochs;
