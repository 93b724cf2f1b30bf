//! The theory of the dollar game: its definitions, in `specs/`, and the laws that follow from them.
//! A law is the contract of a function with an empty body.
#![tactic(auto)]

mod laws;

pub use laws::{
    law_of_burning_losses, laws_of_burning, laws_of_duality, laws_of_equivalence,
    laws_of_existence, laws_of_firing, laws_of_genus, laws_of_joining, laws_of_rank,
    laws_of_reduced, laws_of_winning,
};
