//! What a slider was made with. No value of this type is made by a running program.
use image_core::Image;
use std::collections::LinkedList;

/// The image, its marks and its live words, and whether it began with the job of all pieces.
pub struct Start {
    /// The image.
    pub image: Image,
    /// A mark for each object.
    pub marks: LinkedList<bool>,
    /// For each word whether it is of a marked object.
    pub ranks: LinkedList<bool>,
    /// Whether it began with the job of all pieces, or with nothing.
    pub whole: bool,
}
