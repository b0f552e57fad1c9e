//! The choice of the best input.
ghost use Rattle.std.specs.Prelude.{◌≡◌, ◌<◌, ◌+◌, cond, Some, IfSome, length};
ghost use Rattle.ff_node_filter.specs.best.Inputs.{closed_at, kept_of, kept_to};

use crate::best::input::Input;

// Of the best among lower inputs and input p, the one that is the best.
fn better(inputs: &[Input], best: Option<usize>, p: usize) -> Option<usize>
    requires there { p < length inputs.now }
    requires lower { IfSome best (λ i. i < p) }
    ensures is { result ≡ cond (closed_at inputs.now p) best (Some (kept_of inputs.now best p)) }
    ensures lower { IfSome result (λ i. i < p + 1) }
{
    let input = &inputs[p];
    if input.closed {
        return best;
    }
    let Some(i) = best else {
        return Some(p);
    };
    if input.is_earlier(&inputs[i]) {
        Some(p)
    } else {
        best
    }
}

/// Of the inputs that haven't closed, the one whose last item ends earliest. None where all have closed.
pub(crate) fn earliest(inputs: &[Input]) -> Option<usize>
    ensures is { result ≡ kept_to inputs.now (length inputs.now) }
    ensures there { IfSome result (λ i. i < length inputs.now) }
{
    let mut best: Option<usize> = None;
    'inputs: for p in 0..inputs.len() {
        best = better(inputs, best, p);
    }
    best
}
