//! Whole numbers that the arguments of `join` give.
ghost use Rattle.std.specs.Prelude.{◌≡◌};
ghost use Rattle.ff_filter.specs.Options.{option_of as option_at, ranged as ranged_of, gives};
ghost use Rattle.ff_joins.specs.Arguments.{or_else, last_number as last_number_of};

use ff_filter::{Settings, option_of, ranged};
use ff_lang::Arg;

// Whether an argument gives the option of this number.
fn is_given<S: Settings>(arg: &Arg, keyed: bool, place: usize, option: usize) -> bool
    ensures { result ≡ gives option (option_at S.manual keyed place arg.now.key) }
{
    match option_of::<S>(arg, keyed, place) {
        None => false,
        Some(given) => given == option,
    }
}

// The number that an argument's value says, or another.
fn number_or(text: &str, least: u64, most: u64, otherwise: u64) -> u64
    ensures { result ≡ or_else otherwise (ranged_of least most text.now) }
{
    match ranged(text, least, most) {
        None => otherwise,
        Some(number) => number,
    }
}

/// The number from `least` to `most` that the last argument says that gives an option. It is `otherwise` where that
/// one says none such, or none gives the option, whatever becomes of the other arguments.
pub fn last_number<S: Settings>(
    args: &[Arg],
    option: usize,
    least: u64,
    most: u64,
    otherwise: u64,
) -> u64
    ensures { result ≡ last_number_of S.manual option least most otherwise args.now }
{
    let mut number = otherwise;
    let mut keyed = false;
    'each: for place in 0..args.len() {
        let arg = &args[place];
        if is_given::<S>(arg, keyed, place, option) {
            number = number_or(arg.value.as_str(), least, most, otherwise);
        }
        keyed = keyed | arg.key.is_some();
    }
    number
}
