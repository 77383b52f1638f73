//! Programs without routines, NEW and assignments to parts: true conditions make them correct.

pub mod laws;
