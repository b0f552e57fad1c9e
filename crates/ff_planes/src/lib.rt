//! Whole video frames: mirrored, cut, put on black, and set side by side or one below the other.
//!
//! ```text
//!   width columns          a pixel of the result is a pixel of the frame:
//!  ┌───────────────┐       hflip   the same row, column w - 1 - column
//!  │ Y             │ rows  vflip   row h - 1 - row, the same column
//!  ├───────┬───────┘       crop    row + y, column + x
//!  │ Cb    │               pad     row - y, column - x; black outside
//!  ├───────┤
//!  │ Cr    │               w, h, x and y are those of the plane
//!  └───────┘
//! ```
//!
//! A frame is the bytes of its planes Y, Cb and Cr one after the other (yuv4mpeg(5), "Frame Format"). `specs/Grid`
//! says where a pixel lies, and what a frame is whose pixels a function gives. `Flips`, `Parts` and `Stacks` say by
//! such a function what each of the calls makes. The calls work by whole rows, and where they can in the frame's own
//! memory.
#![tactic(auto)]

mod component;
mod cropping;
mod flips;
mod laws;
mod padding;
mod rectangle;
mod stacking;

pub use component::Component;
pub use cropping::crop;
pub use flips::{hflip, vflip};
pub use laws::{
    a_crop_undoes_a_pad, a_picture_has_the_pixels_that_make_it, mirrors_undo_themselves,
    pictures_on_the_grid_fill_it, small_pictures,
};
pub use padding::pad;
pub use rectangle::Rectangle;
pub use stacking::{hstack, vstack};
