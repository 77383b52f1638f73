//! Names, numbers, fractions and terms as text.

mod printed;

pub use printed::{
    push_decimal, push_fraction, push_head, push_integer, push_name, push_negation, push_term,
};
