//! The map that a string is.
ghost use Rattle.std.specs.Prelude.{◌≡◌, ℕ, List, IfOk};
ghost use Rattle.ff_plan_rules.specs.Maps.{map_of as map_that};

use ff_words::maps::{MapError, MapSpec, read_map};
use std::alloc::{AllocError, Global};

/// The map that a string is, if it is one.
pub(crate) fn map_of(alloc: Global, text: &str) -> Result<Option<MapSpec>, AllocError>
    ensures { IfOk result (λ map. map ≡ map_that text.now) }
{
    match read_map(alloc, text) {
        Ok(map) => Ok(Some(map)),
        Err(MapError::Bad { at: _ }) => Ok(None),
        Err(MapError::NoMemory) => Err(AllocError),
    }
}
