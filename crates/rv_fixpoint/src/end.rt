//! How an analysis is asked, and how it ends.

use rv_proofs::{Certificate, LeftReport};

/// What an analysis may do.
#[derive(Clone, Copy, Debug, PartialEq, Eq)]
pub struct Options {
    /// How many locations there may be, from 1 to 4,096. The certificate of a row claim is not held to it.
    pub locations: u32,
    /// Whether loops may be accelerated.
    pub accelerate: bool,
}

/// How an analysis ends.
#[derive(Debug, Drop)]
pub enum End {
    /// The system is safe: an accepted certificate of it, without loops where these are not to be accelerated.
    Proved(Certificate),
    /// Nothing more was found: a left partition, and why nothing more was split.
    Left(LeftReport),
}
