//! The latest nonces of a shard, with what their uses have left: a ring that keeps no list.
ghost use Rattle.std.specs.Prelude.{◌≡◌, ◌<◌, ◌%◌, ◌&&◌, true, nat_lt, [], List, Option, ℕ, is_some, slice_get, vec_len, IfSome, IfOk};
ghost use Rattle.arrayvec.specs.ArrayVec.{ArrayVec};
ghost use Rattle.nonce_shard.specs.declared.history.Answered.{Answered};
ghost use Rattle.nonce_shard.specs.Nonces.{serves_call, is_live, use_reply};
ghost use Rattle.nonce_shard.specs.Ring.{RepliesTo, HoldsNext};
ghost use Rattle.nonce_shard.specs.NonceRing.{IsUsed, counts_after, prime_after, HoldsNonces};

use crate::calls::{NonceKind, Prime, Reply, What};
use crate::copies::copy_optional_prime;
use crate::names::TableName;
use crate::nonces::{Nonce, Wanted, is_other_session, serves};
use crate::ring::find_place;
use crate::sizes::Setting;
use count_window::{Admit, Window};
use std::alloc::{AllocError, Global};

/// A nonce with what its uses have left. A nonce that serves Digest and SCRAM has one window and one
/// number of uses for the two.
#[derive(Debug, Drop)]
pub struct NonceSlot {
    pub nonce: Nonce,
    pub window: Window,
    pub uses: u32,
    pub prime: Option<Prime>,
}

impl NonceSlot {
    fn new(nonce: Nonce) -> NonceSlot
        ensures nonce { result.nonce ≡ nonce }
        ensures unused { IsUsed result [] None }
    {
        NonceSlot {
            nonce,
            window: Window::new(),
            uses: 0,
            prime: None,
        }
    }

    /// Whether it is the nonce that is named, it serves what it is wanted for, and has uses left.
    fn serves(&self, setting: &Setting, name: &TableName, wanted: &Wanted) -> bool
        ensures served { result ≡ (serves_call setting.now.sizes setting.now.number name.now
            wanted.now.kind wanted.now.space wanted.now.time self.now.nonce && nat_lt self.now.uses setting.now.sizes.uses) }
        ensures room { result ≡ true → self.now.uses < u32.MAX }
    {
        serves(setting, name, wanted, &self.nonce) && self.uses < setting.sizes.uses
    }

    /// Uses a count, once the nonce is known to serve it.
    fn use_count(&mut self, count: u32, given: &Option<Prime>) -> Reply
        requires positive { 0 < count }
        requires room { self.old.uses < u32.MAX }
        ensures reply { (counts : List ℕ) (held : Option (ArrayVec ℕ)) → IsUsed self.old counts held
            → result ≡ use_reply counts held count given.now }
        ensures used { (counts : List ℕ) (held : Option (ArrayVec ℕ)) → IsUsed self.old counts held
            → IsUsed self.new (counts_after counts count result) (prime_after held given.now result) }
        ensures nonce { self.new.nonce ≡ self.old.nonce }
    {
        let mut window = self.window;
        match window.admit(count) {
            Admit::Behind { high } => Reply::Behind { high },
            Admit::Repeated => Reply::Repeated,
            Admit::Fresh => {
                if is_other_session(given, self.prime.as_ref()) {
                    return Reply::OtherSession;
                }
                self.window = window;
                self.uses += 1;
                if self.prime.is_none() {
                    self.prime = copy_optional_prime(given);
                }
                Reply::Fresh { uses: self.uses }
            }
        }
    }
}

/// The latest nonces, each at its serial modulo the number of slots.
#[derive(Drop)]
pub struct NonceRing {
    pub issued: u64,
    pub slots: Vec<NonceSlot>,
}

impl NonceRing {
    /// A ring of this many slots, with all its memory.
    pub fn open(alloc: Global, size: u32) -> Result<NonceRing, AllocError>
        ensures slots { IfOk result (λ r. vec_len r.slots ≡ size) }
        ensures none { IfOk result (λ r. r.issued ≡ 0) }
    {
        let mut slots = Vec::with_capacity(alloc, size as usize)?;
        for _ in 0..size {
            slots.push(NonceSlot::new(Nonce {
                kind: NonceKind::Both,
                space: 0,
                random: [0; 16],
                time: 0,
            }))?;
        }
        Ok(NonceRing { issued: 0, slots })
    }

    /// Puts a nonce in the place of the oldest, and gives its serial.
    pub fn issue(&mut self, nonce: Nonce) -> u64
        requires some { 0 < vec_len self.old.slots }
        requires room { self.old.issued < u64.MAX }
        ensures serial { result ≡ self.old.issued }
        ensures holds { (setting : Setting) → HoldsNext (HoldsNonces setting self.old) (HoldsNonces setting self.new)
            nonce.time (What.Issue nonce.kind nonce.space nonce.random) (Reply.Issued result) }
        ensures length { vec_len self.new.slots ≡ vec_len self.old.slots }
    {
        let serial = self.issued;
        let place = (serial % self.slots.len() as u64) as usize;
        self.slots[place] = NonceSlot::new(nonce);
        self.issued = serial + 1;
        serial
    }

    /// The place of a nonce that is live for what it is wanted for.
    fn live_place(&self, setting: &Setting, name: &TableName, wanted: &Wanted) -> Option<usize>
        requires some { 0 < vec_len self.now.slots }
        ensures place { IfSome result (λ i. i ≡ name.now.serial % vec_len self.now.slots) }
        ensures room { IfSome result (λ i. (slot : NonceSlot) → slice_get self.now.slots.items i ≡ Some slot → slot.uses < u32.MAX) }
        ensures live { (past : List Answered) → HoldsNonces setting.now self.now past
            → is_some result ≡ is_live setting.now.sizes setting.now.number past name.now
            wanted.now.kind wanted.now.space wanted.now.time }
    {
        let place = find_place(name.serial, self.issued, self.slots.len())?;
        if self.slots[place].serves(setting, name, wanted) {
            Some(place)
        } else {
            None
        }
    }

    /// The prime that a live nonce holds.
    pub fn peek(&self, setting: &Setting, name: &TableName, space: u32, now: u64) -> Reply
        requires some { 0 < vec_len self.now.slots }
        ensures { RepliesTo (HoldsNonces setting.now self.now) setting.now now (What.Peek name.now space) result }
    {
        let wanted = Wanted {
            kind: NonceKind::Digest,
            space,
            time: now,
        };
        match self.live_place(setting, name, &wanted) {
            Some(place) => Reply::Prime {
                prime: copy_optional_prime(&self.slots[place].prime),
            },
            None => Reply::Gone,
        }
    }

    /// Uses a count of a live nonce.
    pub fn use_nonce(
        &mut self,
        setting: &Setting,
        name: &TableName,
        wanted: &Wanted,
        count: u32,
        given: &Option<Prime>,
    ) -> Reply
        requires some { 0 < vec_len self.old.slots }
        requires positive { 0 < count }
        ensures reply { RepliesTo (HoldsNonces setting.now self.old) setting.now
            wanted.now.time (What.Use name.now wanted.now.kind wanted.now.space count given.now) result }
        ensures holds { HoldsNext (HoldsNonces setting.now self.old) (HoldsNonces setting.now self.new)
            wanted.now.time (What.Use name.now wanted.now.kind wanted.now.space count given.now) result }
        ensures length { vec_len self.new.slots ≡ vec_len self.old.slots }
    {
        match self.live_place(setting, name, wanted) {
            Some(place) => self.slots[place].use_count(count, given),
            None => Reply::Gone,
        }
    }
}
