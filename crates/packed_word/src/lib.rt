//! Pairs with flags packed into words of 64 bits, and bit fields in slices of words.
#![tactic(auto)]

mod fields;
pub mod laws;
mod words;

pub use fields::Bits;
pub use words::Layout;

#[cfg(test)]
mod tests;
