//! What burns, by hand and as a plain reference has it.
mod burning;
mod reference;
