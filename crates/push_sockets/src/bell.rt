//! Bells that end a wait for sockets.

use mio::{Registry, Token, Waker};
use push_model::NoMemory;
use push_ports::Bell;
use std::alloc::Global;
use std::io;
use std::sync::Arc;
use std::sync::atomic::{AtomicBool, AtomicU64, Ordering};

// What a loop and those that wake it share.
#[derive(Drop)]
struct Clapper {
    /// How often it was rung, modulo 2^64.
    rings: AtomicU64,
    /// The loop is about to wait, or waits.
    asleep: AtomicBool,
    waker: Waker,
}

/// Ends the wait of one listener. A ring makes a system call only while the listener waits.
#[derive(Drop)]
pub struct SocketBell {
    clapper: Arc<Clapper>,
}

impl SocketBell {
    /// A bell whose rings wake the poll of this registry, as events of this token.
    pub(crate) fn new(alloc: Global, registry: &Registry, token: Token) -> io::Result<SocketBell> {
        let clapper = Clapper {
            rings: AtomicU64::new(0),
            asleep: AtomicBool::new(false),
            waker: Waker::new(registry, token)?,
        };
        Ok(SocketBell {
            clapper: Arc::new(alloc, clapper)?,
        })
    }

    /// How often it was rung so far, modulo 2^64.
    pub(crate) fn rings(&self) -> u64 {
        self.clapper.rings.load(Ordering::SeqCst)
    }

    /// Says that the loop is about to wait, and answers whether it may: the bell wasn't rung since it was at `seen` rings. A ring
    /// after this ends the wait.
    pub(crate) fn lie_down(&self, seen: u64) -> bool {
        self.clapper.asleep.store(true, Ordering::SeqCst);
        if self.rings() == seen {
            return true;
        }
        self.get_up();
        false
    }

    /// Says that the loop waits no more.
    pub(crate) fn get_up(&self) {
        self.clapper.asleep.store(false, Ordering::SeqCst);
    }
}

impl Bell for SocketBell {
    fn ring(&self) {
        self.clapper.rings.fetch_add(1, Ordering::SeqCst);
        if self.clapper.asleep.load(Ordering::SeqCst)
            && self.clapper.asleep.swap(false, Ordering::SeqCst)
        {
            let _ = self.clapper.waker.wake();
        }
    }

    fn again(&self) -> Result<SocketBell, NoMemory> {
        match Arc::try_clone(&self.clapper) {
            Ok(clapper) => Ok(SocketBell { clapper }),
            Err(_) => Err(NoMemory),
        }
    }
}
