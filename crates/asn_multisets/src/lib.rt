//! Defines `Multiset`, the multisets that the values of SET OF (X.680, section 28) are, over any
//! table of counts that keeps the contracts of `Counts`. They are seen as the list of their
//! elements, each as often as it is there. The order of that list is of no account.
#![tactic(auto)]

pub mod counts;
pub mod multiset;

pub use counts::Counts;
pub use multiset::Multiset;
