//! Images of objects: when words and roots are one, and what a caller sees of it.
#![tactic(auto)]

mod check;
mod fault;
mod header;
mod image;
mod index;
mod object;
mod walk;

pub use fault::{ImageFault, ImageKind, ReadImage};
pub use header::{refs, size};
pub use image::Image;
pub use object::{Obj, data, references, weak_references};

#[cfg(test)]
mod tests;
