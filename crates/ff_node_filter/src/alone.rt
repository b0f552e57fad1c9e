//! One filter as a machine of a network.
ghost use Rattle.std.specs.Prelude.{◌≡◌, Bool, List, length, Option, false};
ghost use Rattle.ff_filter.specs.Joins.{Flow};
ghost use Rattle.ff_net.specs.declared.fault.Fault.{Fault};
ghost use Rattle.ff_net.specs.Pasts.{start};
ghost use Rattle.ff_filter.specs.Views.{IsNew, breaks};
ghost use Rattle.ff_node_filter.specs.Tasks.{IsLawful, Stands, filter_task};
ghost use Rattle.ff_node_filter.specs.laws.Alones.{alone_view};
ghost use Rattle.ff_node_filter.specs.laws.AloneLaws.{alone_laws};
ghost use Rattle.ff_node_filter.specs.Limiting.{IsLimited, limit_cause};

use ff_filter::Filter;
use ff_frame::{Event, Ticket};
use ff_net::{Fault, Machine};
use ff_stream::{Item, Refused, discard};
use std::alloc::AllocError;

/// One filter as a machine of a network: each law and clause of a machine, from those of a filter, once for all filters.
#[derive(Drop)]
pub struct Alone<F: Filter> {
    /// The filter.
    pub filter: F,
    /// Whether an input broke off.
    pub hurt: bool,
    /// Whether an output broke off before any input did.
    pub long: bool,
}

fn is_break(item: &Item) -> bool
    ensures { result ≡ breaks item.now }
{
    match item {
        Item::Audio(_) | Item::Video(_) | Item::Packet(_) | Item::Trailer(_) | Item::End => false,
        Item::Broken => true,
    }
}

impl<F: Filter> Alone<F> {
    /// A filter to which nothing was done, as a machine that stands for its own function. Of a function within limits the
    /// cause is `TooLong`, where a limit cuts what it gives.
    pub fn new(filter: F) -> Alone<F>
        requires new { IsNew (F.view filter) }
        ensures stands { (cause : List Flow → Option Fault) → IsLawful (F.view filter).ins (F.view filter).outs (F.view filter).rest cause
            → Stands (F.view result.filter) result.hurt result.long (start (filter_task (length (F.view filter).outs) (F.view filter).rest cause)) }
        ensures within_limits { (cuts : List Flow → Bool) → IsLimited (F.view filter).ins (F.view filter).outs (F.view filter).rest cuts
            → Stands (F.view result.filter) result.hurt result.long (start (filter_task (length (F.view filter).outs) (F.view filter).rest (limit_cause (length (F.view filter).outs) (F.view filter).rest cuts))) }
        ensures sound { result.long ≡ false }
        ensures filter { result.filter ≡ filter }
    {
        Alone {
            filter,
            hurt: false,
            long: false,
        }
    }
}

impl<F: Filter + Drop> Machine for Alone<F> {
    ghost view = { λ m. alone_view (F.view m.filter) (λ p. F.spends m.filter p) m.hurt m.long };

    fn inputs(&self) -> usize {
        self.filter.inputs()
    }

    fn outputs(&self) -> usize {
        self.filter.outputs()
    }

    fn source(&self) -> Option<u32> {
        None
    }

    fn fault(&self) -> Option<Fault> {
        if self.long {
            Some(Fault::TooLong)
        } else {
            None
        }
    }

    fn allow(&mut self, ticket: Ticket) -> Option<Ticket> {
        Some(ticket)
    }

    fn feed(&mut self, port: usize, item: Item) -> Result<(), Refused> {
        if self.filter.is_shut(port) {
            discard(item);
            return Ok(());
        }
        let breaks = is_break(&item);
        match self.filter.feed(port, item) {
            Ok(()) => {
                self.hurt = self.hurt | breaks;
                Ok(())
            }
            Err(refused) => Err(refused),
        }
    }

    fn pull(&mut self, port: usize) -> Result<Option<Item>, AllocError> {
        if self.filter.is_stopped(port) {
            return Ok(None);
        }
        match self.filter.pull(port) {
            Ok(Some(item)) => {
                self.long = self.long | (is_break(&item) & !self.hurt);
                Ok(Some(item))
            }
            Ok(None) => Ok(None),
            Err(error) => Err(error),
        }
    }

    fn stop(&mut self, port: usize) {
        self.filter.stop(port);
    }

    fn spent(&self, port: usize) -> bool {
        self.filter.spent(port)
    }

    fn next_event(&mut self) -> Option<Event> {
        None
    }

    fn lacks(&self, port: usize) -> bool {
        self.filter.lacks(port)
    }

    ghost laws = { λ m. alone_laws (F.view m.filter) (λ p. F.spends m.filter p) m.hurt m.long (F.spent_only m.filter) (F.shut_spent m.filter) (F.done_spent m.filter) };
}
