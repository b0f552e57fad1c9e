//! The arguments of `hstack` and `vstack`.
ghost use Rattle.std.specs.Prelude.{◌≡◌, false};
ghost use Rattle.ff_fsync.specs.stacks.Options.{counted, inputs_of, gives_inputs};

use ff_filter::Settings;
use ff_lang::Arg;
use ff_time::read_number;

/// The settings of `hstack` and `vstack`.
#[derive(Clone, Copy, Debug)]
pub struct StackSettings {
    /// How many inputs there are.
    pub inputs: usize,
    /// Whether the output ends where the first input does.
    pub shortest: bool,
}

impl StackSettings {
    /// Two inputs, and the output ends with the last of them.
    pub const DEFAULT: StackSettings = StackSettings {
        inputs: 2,
        shortest: false,
    };
}

impl Settings for StackSettings {
    ghost use Rattle.ff_fsync.specs.stacks.Options.{stack_manual};

    ghost manual = { stack_manual };

    fn option(key: &str) -> Option<usize> {
        if key == "inputs" {
            Some(0)
        } else if key == "shortest" {
            Some(1)
        } else {
            None
        }
    }

    fn places() -> usize {
        2
    }

    fn set(self, option: usize, value: &str) -> Option<StackSettings> {
        let number = read_number(value, 5)?;
        if option == 0 {
            if number < 2 || number > 16 {
                return None;
            }
            return Some(StackSettings {
                inputs: number as usize,
                shortest: self.shortest,
            });
        }
        if number > 1 {
            return None;
        }
        Some(StackSettings {
            inputs: self.inputs,
            shortest: number == 1,
        })
    }
}

// The number of inputs that a value gives; 2 where it isn't taken.
fn inputs_by(value: &str) -> usize
    ensures { result ≡ inputs_of value.now }
{
    match read_number(value, 5) {
        None => 2,
        Some(number) => {
            if number < 2 || number > 16 {
                2
            } else {
                number as usize
            }
        }
    }
}

// Whether an argument gives the number of inputs.
fn is_inputs(arg: &Arg, keyed: bool, place: usize) -> bool
    ensures { result ≡ gives_inputs keyed place arg.now.key }
{
    match &arg.key {
        Some(key) => key.as_str() == "inputs",
        None => place == 0 && !keyed,
    }
}

/// How many inputs there are by the arguments. The last that gives the number counts, even if others are at fault.
pub fn count_inputs(args: &[Arg]) -> usize
    ensures { result ≡ counted false 0 2 args.now }
{
    let mut inputs: usize = 2;
    let mut keyed = false;
    'each: for place in 0..args.len() {
        let arg = &args[place];
        if is_inputs(arg, keyed, place) {
            inputs = inputs_by(arg.value.as_str());
        }
        keyed = keyed | arg.key.is_some();
    }
    inputs
}
