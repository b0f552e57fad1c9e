//! What source filters make by their arguments.
ghost use Rattle.std.specs.Prelude.{◌≡◌};
ghost use Rattle.ff_filters.specs.Makes.{made_as, some_of};

use crate::name::FilterName;
use ff_frame::ConfigError;
use ff_lang::{Arg, SourceName};
use ff_source::{Made, made_by};

fn some(made: Result<Made, ConfigError>) -> Result<Option<Made>, ConfigError>
    ensures { result ≡ some_of made }
{
    match made {
        Ok(made) => Ok(Some(made)),
        Err(error) => Err(error),
    }
}

/// What a source filter of this name makes by its arguments, before any head is known, or why they are refused. None
/// where it is no source filter. It takes no memory.
pub fn made_by_itself(name: FilterName, args: &[Arg]) -> Result<Option<Made>, ConfigError>
    ensures { result ≡ made_as name args.now }
{
    match name {
        FilterName::Color => some(made_by(SourceName::Color, args)),
        FilterName::ANullSrc => some(made_by(SourceName::ANullSrc, args)),
        _ => Ok(None),
    }
}
