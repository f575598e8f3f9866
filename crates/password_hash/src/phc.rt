//! Password hashes in the PHC string format.
mod hash;
mod ident;
mod pairs;
mod params;
mod parts;
mod short_bytes;
mod text;
mod value;

pub use hash::PasswordHash;
pub use ident::Ident;
pub use pairs::Pairs;
pub use params::ParamsString;
pub use short_bytes::{Output, Salt, ShortBytes};
pub use value::Value;
