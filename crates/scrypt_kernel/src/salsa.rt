//! The Salsa20/8 core (RFC 7914, section 3).

pub use crate::cores::salsa::core;
