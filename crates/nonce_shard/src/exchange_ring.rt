//! The latest exchanges of a shard, with how far each has come: a ring that keeps no list.
ghost use Rattle.std.specs.Prelude.{◌≡◌, ◌<◌, ◌%◌, List, is_some, vec_len, IfSome, IfOk};
ghost use Rattle.nonce_shard.specs.declared.history.Answered.{Answered};
ghost use Rattle.nonce_shard.specs.Exchanges.{opening, take_reply, keep_reply};
ghost use Rattle.nonce_shard.specs.Ring.{RepliesTo, HoldsNext};
ghost use Rattle.nonce_shard.specs.ExchangeRing.{progress_after, HoldsExchanges};

use crate::calls::{Exchange, ExchangeFlag, Reply, What};
use crate::exchanges::{
    Opening, Progress, is_named, reply_to_keep, reply_to_recall, reply_to_take,
};
use crate::names::TableName;
use crate::ring::find_place;
use crate::sizes::{Setting, Sizes};
use arrayvec::ArrayVec;
use std::alloc::{AllocError, Global};

/// An exchange with how far it has come.
#[derive(Debug, Drop)]
pub struct ExchangeSlot {
    pub opening: Opening,
    pub progress: Progress,
}

impl ExchangeSlot {
    fn take(&mut self, sizes: &Sizes, now: u64) -> Reply
        ensures reply { result ≡ take_reply sizes.now now self.old.opening self.old.progress }
        ensures progress { self.new.progress ≡ progress_after self.old.progress now result }
        ensures opening { self.new.opening ≡ self.old.opening }
    {
        let reply = reply_to_take(sizes, now, &self.opening, self.progress);
        if matches!(reply, Reply::Taken { .. }) {
            self.progress = Progress::Tried;
        }
        reply
    }

    fn keep(&mut self, now: u64) -> Reply
        ensures reply { result ≡ keep_reply self.old.progress }
        ensures progress { self.new.progress ≡ progress_after self.old.progress now result }
        ensures opening { self.new.opening ≡ self.old.opening }
    {
        let reply = reply_to_keep(self.progress);
        if matches!(reply, Reply::Kept) {
            self.progress = Progress::Finished { time: now };
        }
        reply
    }
}

/// The latest exchanges, each at its serial modulo the number of slots.
#[derive(Drop)]
pub struct ExchangeRing {
    pub opened: u64,
    pub slots: Vec<ExchangeSlot>,
}

fn blank_opening() -> Opening {
    Opening {
        space: 0,
        random: [0; 16],
        exchange: Exchange {
            flag: ExchangeFlag::N,
            bare: ArrayVec::new(),
        },
        time: 0,
    }
}

impl ExchangeRing {
    /// A ring of this many slots, with all its memory.
    pub fn open(alloc: Global, size: u32) -> Result<ExchangeRing, AllocError>
        ensures slots { IfOk result (λ r. vec_len r.slots ≡ size) }
        ensures none { IfOk result (λ r. r.opened ≡ 0) }
    {
        let mut slots = Vec::with_capacity(alloc, size as usize)?;
        for _ in 0..size {
            slots.push(ExchangeSlot {
                opening: blank_opening(),
                progress: Progress::Untried,
            })?;
        }
        Ok(ExchangeRing { opened: 0, slots })
    }

    /// Puts an exchange in the place of the oldest, and gives its serial.
    pub fn begin(&mut self, opening: Opening) -> u64
        requires some { 0 < vec_len self.old.slots }
        requires room { self.old.opened < u64.MAX }
        ensures serial { result ≡ self.old.opened }
        ensures holds { (setting : Setting) → HoldsNext (HoldsExchanges setting self.old) (HoldsExchanges setting self.new)
            opening.time (What.Open opening.space opening.random opening.exchange) (Reply.Opened result) }
        ensures length { vec_len self.new.slots ≡ vec_len self.old.slots }
    {
        let serial = self.opened;
        let place = (serial % self.slots.len() as u64) as usize;
        self.slots[place] = ExchangeSlot {
            opening,
            progress: Progress::Untried,
        };
        self.opened = serial + 1;
        serial
    }

    /// The place of the exchange of this name in this space, while it is there.
    fn place_of(&self, setting: &Setting, name: &TableName, space: u32) -> Option<usize>
        requires some { 0 < vec_len self.now.slots }
        ensures inside { IfSome result (λ i. i ≡ name.now.serial % vec_len self.now.slots) }
        ensures there { (past : List Answered) → HoldsExchanges setting.now self.now past
            → is_some result ≡ is_some (opening setting.now.sizes setting.now.number past name.now space) }
    {
        let place = find_place(name.serial, self.opened, self.slots.len())?;
        if is_named(setting.number, name, space, &self.slots[place].opening) {
            Some(place)
        } else {
            None
        }
    }

    /// Takes the one try of an exchange.
    pub fn take(&mut self, setting: &Setting, now: u64, sid: &TableName, space: u32) -> Reply
        requires some { 0 < vec_len self.old.slots }
        ensures reply { RepliesTo (HoldsExchanges setting.now self.old) setting.now now (What.Take sid.now space) result }
        ensures holds { HoldsNext (HoldsExchanges setting.now self.old) (HoldsExchanges setting.now self.new)
            now (What.Take sid.now space) result }
        ensures length { vec_len self.new.slots ≡ vec_len self.old.slots }
    {
        match self.place_of(setting, sid, space) {
            Some(place) => self.slots[place].take(&setting.sizes, now),
            None => Reply::Gone,
        }
    }

    /// Finishes an exchange whose try is made.
    pub fn keep(&mut self, setting: &Setting, now: u64, sid: &TableName, space: u32) -> Reply
        requires some { 0 < vec_len self.old.slots }
        ensures reply { RepliesTo (HoldsExchanges setting.now self.old) setting.now now (What.Keep sid.now space) result }
        ensures holds { HoldsNext (HoldsExchanges setting.now self.old) (HoldsExchanges setting.now self.new)
            now (What.Keep sid.now space) result }
        ensures length { vec_len self.new.slots ≡ vec_len self.old.slots }
    {
        match self.place_of(setting, sid, space) {
            Some(place) => self.slots[place].keep(now),
            None => Reply::Gone,
        }
    }

    /// Gives a finished exchange.
    pub fn recall(&self, setting: &Setting, now: u64, sid: &TableName, space: u32) -> Reply
        requires some { 0 < vec_len self.now.slots }
        ensures { RepliesTo (HoldsExchanges setting.now self.now) setting.now now (What.Recall sid.now space) result }
    {
        match self.place_of(setting, sid, space) {
            Some(place) => {
                let slot = &self.slots[place];
                reply_to_recall(&setting.sizes, now, &slot.opening, slot.progress)
            }
            None => Reply::Gone,
        }
    }
}
