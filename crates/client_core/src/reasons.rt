//! Why a want is asked for next.

/// Why a want is asked for next.
#[derive(Clone, Copy)]
pub enum Reason {
    /// It is to be asked for, or to be asked for again since a wait of so many milliseconds passed; 0 where
    /// no request of it waits for an answer.
    Wait(u64),
    /// Its lease is to be renewed when about this part of its lifetime is left, in milliseconds.
    Renewal(u64),
    /// The time of an error is over.
    Error,
}
