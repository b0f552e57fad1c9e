//! Filters of video with one input.
//!
//! ```text
//!   arguments, heads ──► T::configure ──► its machine, the heads of its outputs
//!                                          feed │ pull │ stop │ spent
//! ```
//!
//! Each filter is a function on whole streams, in `specs/`, within the limits of every stream. `configure` says which
//! function it is by its arguments, or refuses; its machine meets `ff_filter::Filter`.
#![tactic(auto)]

mod crop;
mod fps;
mod hflip;
mod lasting_trim;
mod laws;
mod null;
mod pad;
mod rate;
mod repaint;
mod scale;
mod set_pts;
mod showing;
mod sizes;
mod span;
mod split;
mod trim;
mod vflip;

pub use crop::{Crop, CropSettings};
pub use fps::{Fps, FpsSettings};
pub use hflip::HFlip;
pub use lasting_trim::LastingTrim;
pub use laws::{
    pictures_at_an_even_rate, pictures_at_an_even_rate_are_sound, pictures_keep_the_broken_rule,
    pictures_kept_are_sound, pictures_painted_are_valid,
};
pub use null::Null;
pub use pad::{Pad, PadSettings};
pub use rate::{Rate, Work};
pub use repaint::{Paint, Repaint};
pub use scale::Scale;
pub use set_pts::SetPts;
pub use showing::{Ahead, Showing};
pub use sizes::Sizes;
pub use span::Span;
pub use split::Split;
pub use trim::Trim;
pub use vflip::VFlip;
