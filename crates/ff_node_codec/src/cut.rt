//! The cut of what a step puts on the outputs.
ghost use Rattle.std.specs.Prelude.{◌≡◌, false, true, None, Some, IfOk, IfErr, IfSome, OnErr};
ghost use Rattle.ff_stream.specs.declared.item.Item.{Item};
ghost use Rattle.ff_stream.specs.Items.{Closes};
ghost use Rattle.ff_filter.specs.Joins.{one};
ghost use Rattle.ff_filter.specs.Made.{made_of};
ghost use Rattle.ff_filter.specs.Views.{closes};
ghost use Rattle.ff_trim.specs.Cuts.{is_uncut as uncut, is_empty, kept};
ghost use Rattle.ff_node_codec.specs.laws.Steps.{puts_of, damage_of, ClosesOnce, IsLeft, IsCutTo, GivesBack, HasSpare};

use crate::step::Step;
use ff_filter::{After, Given, Step as _};
use ff_frame::StreamHead;
use ff_stream::{Item, Refused};
use ff_time::TimeCut;
use ff_trim::Cut;

/// Whether nothing is cut.
pub fn is_uncut(cut: TimeCut) -> bool
    ensures { result ≡ uncut cut }
{
    (cut.start == 0) & cut.length.is_none()
}

/// Whether the cut is over before anything comes.
pub fn starts_over(cut: TimeCut) -> bool
    ensures { result ≡ is_empty cut.length }
{
    match cut.length {
        Some(0) => true,
        Some(_) => false,
        None => false,
    }
}

// What is left of a frame. A cut keeps nothing from one to the next, so each has its own.
fn cut_frame(head: &StreamHead, cut: TimeCut, frame: Item) -> Result<Given, Refused>
    requires goes_on { Closes frame → ⊥ }
    ensures left { IfOk result (λ given. made_of given.item given.after ≡ kept head.now cut (one frame)) }
    ensures goes_on { IfOk result (λ given. IfSome given.item (λ y. closes y ≡ false)) }
{
    let mut own = Cut::of(head, cut);
    own.step(frame)
}

// The step that puts what was given.
fn step_of(given: Given, spare: Option<Item>) -> Step
    requires goes_on { IfSome given.item (λ y. closes y ≡ false) }
    ensures puts { puts_of result ≡ made_of given.item given.after }
    ensures damage { damage_of result ≡ None }
    ensures once { ClosesOnce result }
    ensures back { (x : Item) → spare ≡ Some x → GivesBack x result }
{
    let after = given.after;
    let last = match given.item {
        Some(made) => {
            return Step::Puts {
                made,
                after,
                damage: None,
                spare,
            };
        }
        None => match after {
            After::More => return Step::Passes,
            After::Whole => Item::End,
            After::Broke => Item::Broken,
        },
    };
    Step::Puts {
        made: last,
        after: After::More,
        damage: None,
        spare,
    }
}

// What is left of a frame is put. Without memory for the cut the item comes back that was fed.
fn put_left(
    head: &StreamHead,
    cut: TimeCut,
    frame: Item,
    spare: Option<Item>,
) -> Result<Step, Refused>
    requires goes_on { Closes frame → ⊥ }
    requires spare { (x : Item) × (spare ≡ Some x) }
    ensures left { IfOk result (λ now. IsLeft head.now cut frame now) }
    ensures again { (x : Item) → spare ≡ Some x → IfOk result (λ now. GivesBack x now) }
    ensures back { (x : Item) → spare ≡ Some x → IfErr result (λ refused. refused.item ≡ x) }
{
    match cut_frame(head, cut, frame) {
        Ok(given) => Ok(step_of(given, spare)),
        Err(_) => match spare {
            Some(item) => Err(Refused { item }),
            None => unreachable!(),
        },
    }
}

/// The step, cut: what is left of a frame is put, and what closes the outputs stays as it is.
pub fn cut_step(head: &StreamHead, cut: TimeCut, step: Step) -> Result<Step, Refused>
    requires spare { uncut cut ≡ false → HasSpare step }
    ensures cut { IfOk result (λ now. IsCutTo head.now cut step now) }
    ensures again { (x : Item) → GivesBack x step → IfOk result (λ now. GivesBack x now) }
    ensures back { (x : Item) → (uncut cut ≡ false → GivesBack x step) → IfErr result (λ refused. refused.item ≡ x) }
{
    match step {
        Step::Passes => Ok(Step::Passes),
        Step::Puts {
            made,
            after,
            damage,
            spare,
        } => {
            if is_uncut(cut) | made.closes() {
                return Ok(Step::Puts {
                    made,
                    after,
                    damage,
                    spare,
                });
            }
            put_left(head, cut, made, spare)
        }
    }
}
