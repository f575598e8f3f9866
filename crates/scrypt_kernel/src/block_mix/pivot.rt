//! The indices of the words in diagonal order.

pub use crate::order::diagonal::{INVERSE_PIVOT_ABCD, PIVOT_ABCD, pivots_are_inverse};
