//! The two ends of a link: the sender and the receiver.
ghost use Rattle.std.specs.Prelude.{◌≡◌, ◌≤◌, ◌+◌, ℕ, [], ◌∷◌, ◌++◌, length, Some, IfSome, IfNone, IfErr, OnErr};
ghost use mathlib.Core.List.{IsPrefix};
ghost use Rattle.ff_link.specs.laws.Sendings.{Carries};
ghost use Rattle.ff_link.specs.laws.Views.{ended};
ghost use Rattle.ff_link.specs.laws.Answers.{after_put, HandsBack, SawUnfinished, SawFull};
ghost use Rattle.ff_link.specs.laws.Answers.{after_look_up, SawNoCount, after_push, SawFullAt};
ghost use Rattle.ff_link.specs.laws.Answers.{after_take, TakesValid, SawEmpty};

use crate::answers::{Put, Settled, Take};
use crate::side::{AllCounts, AllItems, Down, DownPass, Hears, Puts, Takes, Up, UpPass, Whole};
use ff_stream::Item;
use std::marker::Model;
use std::sync::{Arc, Wait};

mod opening;

pub use opening::{link, link_claiming};

/// The two queues of a link: the items go down, and the receiver's count comes up.
#[derive(Drop)]
pub(crate) struct Queues {
    down: Down,
    up: Up,
}

/// The end of a link that sends.
#[derive(Drop)]
pub struct Sender {
    queues: Arc<Queues>,
    down: DownPass,
    up: UpPass,
    told: Option<u64>,
    puts: u64,
    full_looks: u64,
    up_looks: u64,
}

impl Model for Sender {
    ghost use Rattle.ff_link.specs.laws.Views.{Sending};

    ghost Value = { Sending };

    ghost use Rattle.ff_link.specs.laws.Ends.{sending, IsSender};

    ghost view = { sending };

    ghost invariant = { IsSender };
}

/// The end of a link that takes.
#[derive(Drop)]
pub struct Receiver {
    queues: Arc<Queues>,
    down: DownPass,
    up: UpPass,
    taken: u64,
    empty_looks: u64,
}

impl Model for Receiver {
    ghost use Rattle.ff_link.specs.laws.Views.{Receiving};

    ghost Value = { Receiving };

    ghost use Rattle.ff_link.specs.laws.Ends.{receiving, IsReceiver};

    ghost view = { receiving };

    ghost invariant = { IsReceiver };
}

/// A receiver that takes nothing more and has sent its count up.
#[derive(Drop)]
pub struct Finished {
    queues: Arc<Queues>,
    down: DownPass,
    up: UpPass,
    taken: u64,
}

impl Model for Finished {
    ghost use Rattle.ff_link.specs.laws.Views.{Ended};

    ghost Value = { Ended };

    ghost use Rattle.ff_link.specs.laws.Ends.{finished, IsFinished};

    ghost view = { finished };

    ghost invariant = { IsFinished };
}

impl Sender {
    /// How many items the link holds at most.
    pub fn size(&self) -> usize
        ensures { result ≡ self.now.room }
    {
        self.queues.down.capacity()
    }

    /// How many items were put, a closing one among them.
    pub fn puts(&self) -> u64
        ensures { result ≡ length self.now.sent }
    {
        self.puts
    }

    /// How often the queue was found full. It stays at 2^64 - 1 once it is there.
    pub fn full_looks(&self) -> u64
        ensures { result ≡ self.now.full_looks }
    {
        self.full_looks
    }

    /// How often no count was found. It stays at 2^64 - 1 once it is there.
    pub fn up_looks(&self) -> u64
        ensures { result ≡ self.now.up_looks }
    {
        self.up_looks
    }

    /// Puts an item that continues what was sent as the link's claim asks, unless the queue is full or the receiver has finished.
    ///
    /// Once it has answered Finished with a count, it does so at every call. It takes no memory.
    pub fn try_put<R: Wait>(&mut self, rt: &R, item: Item) -> Put
        requires { Carries self.old.link.claims self.old.lane (self.old.sent ++ item ∷ []) }
        ensures after { self.new ≡ after_put self.old item result }
        ensures back { HandsBack item result }
        ensures unfinished { SawUnfinished result }
        ensures full { SawFull self.old result }
        ensures finished { (n : ℕ) → self.old.told ≡ Some n → result ≡ Put.Finished item n }
    {
        if let Some(count) = self.heard(rt) {
            return Put::Finished(item, count);
        }
        match self.push(rt, item) {
            Ok(()) => Put::Done,
            Err(item) => Put::Full(item),
        }
    }

    // The count that the receiver sent up, from an earlier look or from one at the queue.
    fn heard<R: Wait>(&mut self, rt: &R) -> Option<u64>
        ensures after { self.new ≡ after_look_up self.old result }
        ensures none { IfNone result SawNoCount }
        ensures told { (n : ℕ) → self.old.told ≡ Some n → result ≡ Some n }
    {
        if let Some(count) = self.told {
            return Some(count);
        }
        let found = self.queues.up.pop_as::<Hears, R>(rt, &mut self.up);
        match found {
            Some(count) => self.told = Some(count),
            None => self.up_looks = self.up_looks.saturating_add(1),
        }
        found
    }

    // Puts an item, unless the queue is full.
    fn push<R: Wait>(&mut self, rt: &R, item: Item) -> Result<(), Item>
        requires { Carries self.old.link.claims self.old.lane (self.old.sent ++ item ∷ []) }
        ensures after { self.new ≡ after_push self.old item result }
        ensures back { IfErr result (λ back. back ≡ item) }
        ensures full { OnErr result (SawFullAt self.old) }
    {
        match self
            .queues
            .down
            .push_as::<Puts, R>(rt, &mut self.down, item)
        {
            Ok(()) => {
                self.puts += 1;
                Ok(())
            }
            Err(item) => {
                self.full_looks = self.full_looks.saturating_add(1);
                Err(item)
            }
        }
    }
}

impl Receiver {
    /// How many items were taken.
    pub fn taken(&self) -> u64
        ensures { result ≡ length self.now.taken }
    {
        self.taken
    }

    /// How often the queue was found empty. It stays at 2^64 - 1 once it is there.
    pub fn empty_looks(&self) -> u64
        ensures { result ≡ self.now.empty_looks }
    {
        self.empty_looks
    }

    /// Takes the oldest item, unless the queue is empty. It takes no memory.
    pub fn try_take<R: Wait>(&mut self, rt: &R) -> Take
        ensures after { self.new ≡ after_take self.old result }
        ensures valid { TakesValid self.old result }
        ensures empty { SawEmpty self.old result }
    {
        match self.queues.down.pop_as::<Takes, R>(rt, &mut self.down) {
            Some(item) => {
                self.taken += 1;
                Take::Item(item)
            }
            None => {
                self.empty_looks = self.empty_looks.saturating_add(1);
                Take::Empty
            }
        }
    }

    /// Takes nothing more, and sends the count of what was taken up. It can't be refused.
    pub fn finish<R: Wait>(self, rt: &R) -> Finished
        ensures { result ≡ ended self }
    {
        let Receiver {
            queues,
            down,
            mut up,
            taken,
            ..
        } = self;
        match queues.up.push_as::<Puts, R>(rt, &mut up, taken) {
            Ok(()) => Finished {
                queues,
                down,
                up,
                taken,
            },
            Err(_) => unreachable!(),
        }
    }
}

/// Joins the two ends of a link, which shows that what was taken is the first of what was sent.
///
/// What is left is at most the link's size. A count that the sender was told is that of what was taken. It takes no memory.
pub fn settle(sender: Sender, finished: Finished) -> Settled
    requires { sender.link ≡ finished.link }
    ensures sent { result.sent ≡ length sender.sent }
    ensures taken { result.taken ≡ length finished.taken }
    ensures in_order { IsPrefix finished.taken sender.sent }
    ensures within { length sender.sent ≤ length finished.taken + sender.room }
    ensures told { IfSome sender.told (λ n. n ≡ length finished.taken) }
    ensures valid { Carries sender.link.claims sender.lane sender.sent }
{
    let Sender {
        queues,
        mut down,
        up: hears,
        puts,
        ..
    } = sender;
    let Finished {
        down: takes,
        up: mut tells,
        taken,
        ..
    } = finished;
    queues.down.absorb::<Whole>(&mut down, takes);
    queues.down.learn_as::<AllItems>(&mut down);
    queues.up.absorb::<Whole>(&mut tells, hears);
    queues.up.learn_as::<AllCounts>(&mut tells);
    Settled { sent: puts, taken }
}
