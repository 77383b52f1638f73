//! Linear forms and atoms of terms, and proofs as data.
#![tactic(auto)]

pub mod copies;
mod forms;
mod formulas;
mod laws;
mod linear_form;
mod numerals;
pub mod parts;
pub mod proofs;
mod sets;
mod tables;
mod valued;
mod walk;

pub use copies::{FactNumbers, same_step};
pub use forms::{AtomFault, linear};
pub use formulas::{atoms, is_atom};
pub use laws::{law_form, law_steps, law_truth};
pub use linear_form::Linear;
pub use numerals::{numeral, numeral_relation};
pub use proofs::{Proof, ProofNode, Relation, Split, Stated, Step};
pub use sets::TermSet;
pub use valued::{computed, computed_over, connected, truth, values_in_order};
pub use walk::{Through, all_in_order, has_meaning_head, in_order, is_sum_head};
