//! Origins, and what the engine knows of a URL.
#![tactic(auto)]

mod law;
mod origin;
mod place;
mod scheme;
mod trust;
mod usual;

pub use law::same_origins_are_one;
pub use origin::{Origin, Tuple, origin_text, put_origin, same_origin};
pub use place::{Place, PlaceFault, PlaceKind, read_place};
pub use scheme::{HostForm, Scheme};
pub use trust::trustworthy;

#[cfg(test)]
mod tests;
