//! Sliding an image: its live objects are kept, in order, and moved down without gaps.
//!
//! [`slide_one`] does it on one thread, [`slide_with`] by a crew of workers, with one answer: the slide
//! of the image by its live objects. Who calls them says which objects are live, and gets an image that
//! needs no test and no further walk: its headers are made with the new places. The words of the live
//! objects are bits, and the new place of a word is its rank, how many of them stand below it. A word
//! that names an object without its bit becomes 0, and a reference and a weak word are renamed alike.
//!
//! The ranks come first, so that the words of a piece (256 objects in address order) are a function of
//! the image, the marks and the piece's number. Workers and theorem share that function:
//! [`slid_in_pieces`] says that the words of the slide are those of its pieces, in order. A job is a
//! range of pieces. A worker slides the first piece of a job, and halves what is left of it, again and
//! again; the halves go through the queue of one bay. So each piece is slid once, by somebody, into
//! memory of its own, and copied once, to its place in the new image.
//!
//! It holds whatever the gate, the crew's blocks and draws, and the order of the workers' steps. Pieces of
//! jobs that spent passes left in the bay are slid by the caller.
#![tactic(auto)]

mod crew;
mod jobs;
mod joins;
mod moves;
mod pieces;
mod places;
mod slide;
mod sliders;
mod starts;

pub use crew::slide_with;
pub use pieces::slid_in_pieces;
pub use slide::slide_one;

#[cfg(test)]
mod tests;
