//! A machine of one input that gives what it makes on each of its outputs.
ghost use Rattle.std.specs.Prelude.{◌≡◌, ◌<◌, ◌≤◌, ◌⊎◌, ◌↔◌, ◌∷◌, [], ℕ, true, false, None, Some, IsTrue, OnOk, OnErr, IfOk, IfErr, length};
ghost use Rattle.ff_stream.specs.declared.item.Item.{Item};
ghost use Rattle.ff_stream.specs.declared.item.Lane.{Lane};
ghost use Rattle.ff_stream.specs.Stream.{still_open, LiesBelow};
ghost use Rattle.ff_stream.specs.Items.{with_item};
ghost use Rattle.ff_stream.specs.Ports.{nothing, stream_at};
ghost use Rattle.ff_net.specs.Ways.{AreValid};
ghost use Rattle.ff_net.specs.Pasts.{Task, Past, IsIn, fed, gave_item, was_asked, was_stopped, due, start};
ghost use Rattle.ff_node_codec.specs.Making.{Making, fault_by};
ghost use Rattle.ff_node_codec.specs.Spreads.{Makes, AllStopped};
ghost use Rattle.ff_node_codec.specs.laws.Steps.{GivesBack, HasSpare};
ghost use Rattle.ff_node_codec.specs.laws.Lines.{line_at, HaveRoom};

use crate::outs::{last_wanted, put_on_all, reserve_all};
use crate::ready::Ready;
use crate::step::Step;
use ff_filter::After;
use ff_net::Fault;
use ff_stream::{Item, Refused};
use std::alloc::{AllocError, Global};

/// The outputs, and what is known of the input.
#[derive(Drop)]
pub struct Spread {
    outs: Vec<Ready>,
    /// Whether nothing more is made: the input has closed, or broke off here.
    closed: bool,
    /// Where the input is damaged, if it broke off here.
    damage: Option<u64>,
    ghost some: { 1 ≤ length outs.items },
}

impl Spread {
    ghost use Rattle.ff_node_codec.specs.laws.Standing.{SpreadStands, IsSameSpread, GoesOnSpread, IsSpreadTask, at_first};
    ghost use Rattle.ff_node_codec.specs.laws.Feeding.{IsFedPut, IsFollowed};

    /// Nothing was made yet, for so many outputs; all is over, where that is so before anything comes.
    pub fn new(alloc: Global, outputs: usize, over: bool) -> Result<Spread, AllocError>
        requires { 1 ≤ outputs }
        ensures count { IfOk result (λ m. length m.outs.items ≡ outputs) }
        ensures sound { IfOk result (λ m. m.damage ≡ None) }
        ensures stands { IfOk result (λ m. (lane_in lane_out : Lane) (f : Making) (task : Task) → Makes lane_in lane_out f → IsSpreadTask outputs f task
            → f.stream nothing ≡ at_first over → SpreadStands lane_in lane_out f m (start task)) }
    {
        let mut outs = Vec::new(alloc);
        for _q in 0..outputs {
            let ready = Ready::new(alloc, over)?;
            outs.push(ready)?;
        }
        Ok(Spread {
            outs,
            closed: over,
            damage: None,
        })
    }

    /// How many outputs there are.
    pub fn count(&self) -> usize
        ensures { result ≡ length self.now.outs.items }
    {
        self.outs.len()
    }

    /// That the input is damaged, where it broke off here.
    pub fn fault(&self) -> Option<Fault>
        ensures { result ≡ fault_by self.now.damage }
    {
        match self.damage {
            None => None,
            Some(offset) => Some(Fault::Damaged { offset }),
        }
    }

    /// Whether nothing more is made.
    pub fn is_closed(&self) -> bool
        ensures { result ≡ self.now.closed }
    {
        self.closed
    }

    /// Makes room for an item more, and for one that closes the outputs.
    pub fn reserve(&mut self) -> Result<(), AllocError>
        ensures same { IsSameSpread self.old self.new }
        ensures room { OnOk result (HaveRoom self.new.outs.items) }
    {
        reserve_all(&mut self.outs)
    }

    /// Whether an item that is made has to be copied: there is more than one output.
    pub fn is_shared(&self) -> bool
        ensures { 2 ≤ length self.now.outs.items → result ≡ true }
    {
        self.outs.len() > 1
    }

    // Puts an item on each output that is wanted, and after it what closes the output, if it is over.
    fn put(
        &mut self,
        alloc: Global,
        made: Item,
        after: After,
        damage: Option<u64>,
    ) -> Result<(), AllocError>
        requires { HaveRoom self.old.outs.items }
        ensures accepted { OnOk result (IsFedPut self.old self.new made after damage) }
        ensures goes_on { GoesOnSpread self.old self.new }
        ensures same { OnErr result (IsSameSpread self.old self.new) }
        ensures shared { OnErr result (2 ≤ length self.old.outs.items) }
    {
        let closes = made.closes();
        let over = after.is_over();
        put_on_all(alloc, &mut self.outs, made, after)?;
        self.closed = self.closed | (closes | over);
        if self.damage.is_none() {
            self.damage = damage;
        }
        Ok(())
    }

    /// Does this step. Without memory for it the item comes back that was fed.
    pub fn follow(&mut self, alloc: Global, step: Step) -> Result<(), Refused>
        requires room { HaveRoom self.old.outs.items }
        requires spare { 2 ≤ length self.old.outs.items → HasSpare step }
        ensures accepted { OnOk result (IsFollowed self.old self.new step) }
        ensures back { (x : Item) → (2 ≤ length self.old.outs.items → GivesBack x step) → IfErr result (λ refused. refused.item ≡ x) }
        ensures goes_on { GoesOnSpread self.old self.new }
        ensures same { OnErr result (IsSameSpread self.old self.new) }
    {
        match step {
            Step::Passes => Ok(()),
            Step::Puts {
                made,
                after,
                damage,
                spare,
            } => match self.put(alloc, made, after, damage) {
                Ok(()) => Ok(()),
                Err(_) => match spare {
                    Some(item) => Err(Refused { item }),
                    None => unreachable!(),
                },
            },
        }
    }

    /// The next item that is ready on an output.
    pub fn take(&mut self, port: usize) -> Option<Item>
        requires { port < length self.old.outs.items }
        ensures gives { (lane_in lane_out : Lane) (f : Making) (past : Past) (x : Item) → result ≡ Some x
            → SpreadStands lane_in lane_out f self.old past → (IsIn port past.stopped → ⊥)
            → SpreadStands lane_in lane_out f self.new (gave_item past port x) × ((stream_at past.gave port).mark ≡ still_open) × LiesBelow (with_item (stream_at past.gave port) x) (stream_at (due past) port) }
        ensures waits { (lane_in lane_out : Lane) (f : Making) (past : Past) → result ≡ None → SpreadStands lane_in lane_out f self.old past
            → SpreadStands lane_in lane_out f self.new (was_asked past port) }
        ensures none_due { (lane_in lane_out : Lane) (f : Making) (past : Past) → result ≡ None
            → SpreadStands lane_in lane_out f self.old past → (IsIn port past.stopped → ⊥) → stream_at past.gave port ≡ stream_at (due past) port }
        ensures count { length self.new.outs.items ≡ length self.old.outs.items }
        ensures damage { self.new.damage ≡ self.old.damage }
    {
        let out = &mut self.outs[port];
        out.queue.pop_front()
    }

    /// Nothing more is wanted on an output: what is ready there is let go.
    pub fn stop(&mut self, port: usize)
        requires { port < length self.old.outs.items }
        ensures stopped { (lane_in lane_out : Lane) (f : Making) (past : Past) → SpreadStands lane_in lane_out f self.old past
            → SpreadStands lane_in lane_out f self.new (was_stopped past port) }
        ensures count { length self.new.outs.items ≡ length self.old.outs.items }
        ensures damage { self.new.damage ≡ self.old.damage }
    {
        let out = &mut self.outs[port];
        out.stopped = true;
        out.queue.clear();
    }

    /// Whether nothing more of the input can matter.
    pub fn is_spent(&self) -> bool
        ensures { IsTrue result ↔ ((self.now.closed ≡ true) ⊎ AllStopped (length self.now.outs.items) (line_at self.now.outs.items)) }
    {
        if self.closed {
            return true;
        }
        last_wanted(&self.outs).is_none()
    }
}
