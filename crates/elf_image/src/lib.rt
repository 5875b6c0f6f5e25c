//! Guest files: an ELF file is loaded as an image, or the first of fifteen tests that it fails is told.
#![tactic(auto)]

mod fields;
mod headers;
mod image;
mod loader;
mod loads;
mod stop;

pub use image::Image;
pub use loader::{image_id, load};
pub use stop::ElfStop;
