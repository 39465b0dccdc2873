//! Tests of the core of an external address by requests one after the other, and of each of its
//! calls: of the core that a server uses, and of one over plain lists beside it.
#![tactic(auto)]

#[cfg(test)]
mod calls;
#[cfg(test)]
mod generated;
#[cfg(test)]
mod making;
#[cfg(test)]
mod most;
#[cfg(test)]
mod requests;
#[cfg(test)]
mod rows;
#[cfg(test)]
mod serving;
