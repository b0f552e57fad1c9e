//! Bells, by which workers wake each other when a link or the scheduler has something for them. No claim rests on
//! them: a worker that nobody wakes goes on when its sleep ends.
use std::alloc::{AllocError, Global};
use std::sync::Wait;
use std::sync::atomic::{AtomicBool, AtomicU64, Ordering};
use std::thread::Parker;
use std::time::Duration;

// What the workers at the two ends of a link ask of each other.
#[derive(Drop)]
struct Asks {
    sender: usize,
    receiver: usize,
    // The sender asks to be woken once so many items were taken. 0 where it doesn't.
    room_at: AtomicU64,
    // The receiver asks to be woken once so many items were put. 0 where it doesn't.
    item_at: AtomicU64,
}

#[derive(Drop)]
struct Bell {
    parker: Parker,
    // Whether the caller turns the node of this worker, so that its own bell rings instead.
    here: AtomicBool,
    // Whether this worker asks to be woken once the scheduler was told something.
    grant: AtomicBool,
}

/// A bell for each worker and after them one for the caller. Beside them stands what the workers at each link ask of
/// each other, by the number of its wire.
#[derive(Drop)]
pub struct Bells {
    bells: Vec<Bell>,
    links: Vec<Asks>,
    // How many ask to be woken once the scheduler was told something.
    choked: AtomicU64,
}

fn new_bell() -> Bell {
    Bell {
        parker: Parker::new(),
        here: AtomicBool::new(false),
        grant: AtomicBool::new(false),
    }
}

impl Bells {
    /// Bells for so many workers, and for links with numbers below this, at whose ends nobody is yet.
    pub fn new(alloc: Global, workers: usize, links: usize) -> Result<Bells, AllocError> {
        let mut all = Bells {
            bells: Vec::new(alloc),
            links: Vec::new(alloc),
            choked: AtomicU64::new(0),
        };
        for _ in 0..workers {
            all.bells.push(new_bell())?;
        }
        all.bells.push(new_bell())?;
        for _ in 0..links {
            all.links.push(Asks {
                sender: 0,
                receiver: 0,
                room_at: AtomicU64::new(0),
                item_at: AtomicU64::new(0),
            })?;
        }
        Ok(all)
    }

    /// The number of the caller's bell.
    pub fn caller(&self) -> usize {
        self.bells.len().saturating_sub(1)
    }

    /// The caller turns the node of this worker.
    pub fn turns_here(&self, worker: usize) {
        if let Some(bell) = self.bells.get(worker) {
            bell.here.store(true, Ordering::SeqCst);
        }
    }

    /// This worker sends over this link.
    pub fn set_sender(&mut self, link: usize, worker: usize) {
        if let Some(asks) = self.links.get_mut(link) {
            asks.sender = worker;
        }
    }

    /// This worker takes from this link.
    pub fn set_receiver(&mut self, link: usize, worker: usize) {
        if let Some(asks) = self.links.get_mut(link) {
            asks.receiver = worker;
        }
    }

    /// The sender of this link asks to be woken once so many items were taken, or no longer where it is 0.
    pub fn ask_for_room(&self, link: usize, taken: u64) {
        if let Some(asks) = self.links.get(link) {
            asks.room_at.store(taken, Ordering::SeqCst);
        }
    }

    /// The receiver of this link asks to be woken once so many items were put, or no longer where it is 0.
    pub fn ask_for_item(&self, link: usize, put: u64) {
        if let Some(asks) = self.links.get(link) {
            asks.item_at.store(put, Ordering::SeqCst);
        }
    }

    /// This worker asks to be woken once the scheduler was told something, or no longer.
    pub fn ask_for_grant(&self, worker: usize, wants: bool) {
        let Some(bell) = self.bells.get(worker) else {
            return;
        };
        if wants {
            self.choked.fetch_add(1, Ordering::SeqCst);
            if !bell.grant.swap(true, Ordering::SeqCst) {
                return;
            }
        } else if !bell.grant.swap(false, Ordering::SeqCst) {
            return;
        }
        self.choked.fetch_sub(1, Ordering::SeqCst);
    }

    /// The scheduler was told something. It wakes each worker that asks for it.
    pub fn told(&self) {
        if self.choked.load(Ordering::SeqCst) == 0 {
            return;
        }
        for worker in 0..self.bells.len() {
            self.wake_choked(worker);
        }
    }

    fn wake_choked(&self, worker: usize) {
        let Some(bell) = self.bells.get(worker) else {
            return;
        };
        if bell.grant.swap(false, Ordering::SeqCst) {
            self.choked.fetch_sub(1, Ordering::SeqCst);
            self.ring(worker);
        }
    }

    /// So many items were taken from this link. It wakes the sender where that asks for it.
    pub fn taken(&self, link: usize, count: u64) {
        let Some(asks) = self.links.get(link) else {
            return;
        };
        self.ring_at(&asks.room_at, count, asks.sender);
    }

    /// So many items were put on this link. It wakes the receiver where that asks for it.
    pub fn put(&self, link: usize, count: u64) {
        let Some(asks) = self.links.get(link) else {
            return;
        };
        self.ring_at(&asks.item_at, count, asks.receiver);
    }

    // Wakes a worker that asks for it at this count or a lower one, which it then no longer does.
    fn ring_at(&self, asked: &AtomicU64, count: u64, worker: usize) {
        let at = asked.load(Ordering::SeqCst);
        if at == 0 || count < at {
            return;
        }
        let found = asked.compare_exchange(at, 0, Ordering::SeqCst, Ordering::SeqCst);
        if found.is_ok() {
            self.ring(worker);
        }
    }

    fn ring(&self, worker: usize) {
        let Some(bell) = self.bells.get(worker) else {
            return;
        };
        if !bell.here.load(Ordering::SeqCst) {
            bell.parker.unpark();
        } else if let Some(bell) = self.bells.get(self.caller()) {
            bell.parker.unpark();
        }
    }

    /// This worker sleeps until its bell rings, for at most so many milliseconds.
    pub fn sleep<R: Wait>(&self, rt: &R, worker: usize, milliseconds: u64) {
        if let Some(bell) = self.bells.get(worker) {
            bell.parker
                .park_timeout(rt, Duration::from_millis(milliseconds));
        }
    }
}
