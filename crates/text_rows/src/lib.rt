//! Tests of texts: configurations, the lines of scripts and what they put out, and scripts that are
//! played.
#![tactic(auto)]

#[cfg(test)]
mod configs;
#[cfg(test)]
mod lines;
#[cfg(test)]
mod plays;
