//! Images as bytes, images that are made up from a seed, and one number of an image.
#![tactic(auto)]

mod draws;
mod folding;
mod frame;
mod make;
mod named;
mod objects;
mod plan;
mod read;
mod shape;
mod words;
mod write;

pub use folding::fold;
pub use make::make_image;
pub use read::{into_image, read_image};
pub use write::write_image;

#[cfg(test)]
mod fault_tests;
#[cfg(test)]
mod tests;
