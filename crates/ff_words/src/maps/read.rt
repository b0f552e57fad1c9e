//! The reader of a whole string as a map.
ghost use Rattle.std.specs.Prelude.{◌≡◌, ◌⊎◌, ℕ, IsErrOf};
ghost use Rattle.ff_words.specs.maps.Grammar.{IsMap, IsBadAt};
ghost use Rattle.ff_words.specs.declared.maps.map.MapSpec.{MapSpec};

use crate::maps::error::MapError;
use crate::maps::map::MapSpec;
use crate::maps::reading::Reading;
use std::alloc::Global;

/// The map that a string stands for. `Bad` where it is none, with the first byte after which none goes on, or the length where
/// it ends too early.
pub fn read_map(alloc: Global, text: &str) -> Result<MapSpec, MapError>
    ensures ok { (map : MapSpec) → result ≡ Ok map → IsMap text.now map }
    ensures read { (map : MapSpec) → IsMap text.now map
        → (result ≡ Ok map) ⊎ IsErrOf result MapError.NoMemory }
    ensures bad { (at : ℕ) → IsErrOf result (MapError.Bad at) → IsBadAt text.now at }
    ensures refused { (at : ℕ) → IsBadAt text.now at
        → IsErrOf result (MapError.Bad at) ⊎ IsErrOf result MapError.NoMemory }
{
    let mut reading = Reading::Start;
    for (at, byte) in text.as_bytes().iter().enumerate() {
        match reading.next(alloc, *byte)? {
            Some(next) => reading = next,
            None => return Err(MapError::Bad { at }),
        }
    }
    match reading.end() {
        Some(map) => Ok(map),
        None => Err(MapError::Bad { at: text.len() }),
    }
}
