//! `bounds`: Bounds on the rows of relations: the bounds that a literal of a relation of whole numbers is, and a contradiction of bounds as multiples of facts.
//! `farkas`: The tableau's answers as facts of a derivation: what is told as what it says of a row, and a contradiction of bounds as a fact that ends the path.
//! `slack_rows`: The rows of a tableau for the relations of whole numbers among terms: the form of the difference of the sides of each.
//! `constraint_rows`: Bounds on the rows of relations that come from the facts of a derivation, and what a contradiction of them shows.
#![tactic(auto)]

pub mod bounds;
pub mod constraint_rows;
pub mod farkas;
pub mod slack_rows;
