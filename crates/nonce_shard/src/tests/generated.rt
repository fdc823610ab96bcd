//! The shard beside the plain program, over generated calls.
ghost use Rattle.std.specs.Prelude.{◌<◌};
ghost use Rattle.nonce_shard.specs.Replies.{Fits};

use crate::calls::{Call, Exchange, ExchangeFlag, NonceKind, Prime, Reply, What};
use crate::history::Answered;
use crate::look_back::{answer_to, count_totals};
use crate::names::{NameKind, TableName};
use crate::shard::Shard;
use crate::sizes::{Setting, Sizes};
use arrayvec::ArrayVec;
use std::process::Abort;
use std::test::Fail;

const CALLS: u32 = 6_000;

/// Both rings are wrapped many times, and lives end within some calls.
const SETTING: Setting = Setting {
    number: 3,
    sizes: Sizes {
        shards: 4,
        nonces: 5,
        exchanges: 3,
        nonce_life: 120,
        open_life: 40,
        finished_life: 90,
        uses: 9,
    },
};

/// Numbers that look random (a linear congruence), and what names are made of.
#[derive(Drop)]
struct Generator {
    state: u64,
    issued: u64,
    opened: u64,
    clock: u64,
}

impl Generator {
    fn below(&mut self, limit: u64) -> u64
        requires { 0 < limit }
        ensures { result < limit }
    {
        self.state = self
            .state
            .wrapping_mul(6_364_136_223_846_793_005)
            .wrapping_add(1_442_695_040_888_963_407);
        (self.state >> 33) % limit
    }

    fn once_in(&mut self, turns: u64) -> bool
        requires { 0 < turns }
    {
        self.below(turns) == 0
    }

    /// Mostly a little later than before, now and then earlier.
    fn moment(&mut self) -> u64 {
        if self.once_in(9) {
            return self.clock.saturating_sub(self.below(30));
        }
        self.clock = self.clock.saturating_add(self.below(3));
        self.clock
    }

    fn kind(&mut self) -> NonceKind {
        match self.below(3) {
            0 => NonceKind::Digest,
            1 => NonceKind::Scram,
            _ => NonceKind::Both,
        }
    }

    fn space(&mut self) -> u32 {
        if self.once_in(12) { 1 } else { 0 }
    }

    /// Mostly the name of one of the latest, now and then of an older one, of none yet, or of
    /// another kind, shard or text.
    fn name(&mut self, kind: NameKind, made: u64) -> TableName {
        let back = if self.once_in(6) {
            self.below(9)
        } else {
            1 + self.below(3)
        };
        let serial = made.saturating_sub(back);
        TableName {
            kind,
            shard: if self.once_in(20) { 2 } else { 3 },
            serial,
            random: [if self.once_in(20) {
                255
            } else {
                (serial % 200) as u8
            }; 16],
        }
    }

    fn nonce(&mut self) -> TableName {
        let issued = self.issued;
        if self.once_in(20) {
            return self.name(NameKind::Exchange, issued);
        }
        self.name(NameKind::Nonce, issued)
    }

    fn sid(&mut self) -> TableName {
        let opened = self.opened;
        if self.once_in(20) {
            return self.name(NameKind::Nonce, opened);
        }
        self.name(NameKind::Exchange, opened)
    }

    fn prime(&mut self) -> Option<Prime> {
        let mut prime = Prime::new();
        match self.below(8) {
            0 | 1 => prime.push(b'b'),
            2 | 3 => prime.push(b'a'),
            _ => return None,
        }
        Some(prime)
    }

    fn count(&mut self) -> u32
        ensures { 0 < result }
    {
        if self.once_in(3) {
            1 + self.below(300) as u32
        } else {
            1 + self.below(12) as u32
        }
    }

    fn issue(&mut self) -> What
        ensures { Fits result }
    {
        let random = [(self.issued % 200) as u8; 16];
        self.issued = self.issued.saturating_add(1);
        What::Issue {
            kind: self.kind(),
            space: self.space(),
            random,
        }
    }

    fn open(&mut self) -> What
        ensures { Fits result }
    {
        let byte = (self.opened % 200) as u8;
        self.opened = self.opened.saturating_add(1);
        let mut bare = ArrayVec::new();
        bare.push(byte);
        What::Open {
            space: self.space(),
            random: [byte; 16],
            exchange: Exchange {
                flag: ExchangeFlag::N,
                bare,
            },
        }
    }

    fn use_nonce(&mut self) -> What
        ensures { Fits result }
    {
        What::Use {
            nonce: self.nonce(),
            kind: if self.once_in(3) {
                NonceKind::Scram
            } else {
                NonceKind::Digest
            },
            space: self.space(),
            count: self.count(),
            prime: self.prime(),
        }
    }

    fn what(&mut self) -> What
        ensures { Fits result }
    {
        match self.below(16) {
            0 => self.issue(),
            1 => What::Peek {
                nonce: self.nonce(),
                space: self.space(),
            },
            2 => self.open(),
            3 | 4 => What::Take {
                sid: self.sid(),
                space: self.space(),
            },
            5 | 6 => What::Keep {
                sid: self.sid(),
                space: self.space(),
            },
            7 => What::Recall {
                sid: self.sid(),
                space: self.space(),
            },
            _ => self.use_nonce(),
        }
    }

    fn call(&mut self) -> Call
        ensures { Fits result.what }
    {
        Call {
            moment: self.moment(),
            what: self.what(),
        }
    }
}

fn place_of(reply: &Reply) -> usize
    ensures { result < 11 }
{
    match reply {
        Reply::Issued { .. } => 0,
        Reply::Prime { .. } => 1,
        Reply::Fresh { .. } => 2,
        Reply::Gone => 3,
        Reply::Behind { .. } => 4,
        Reply::Repeated => 5,
        Reply::OtherSession => 6,
        Reply::Opened { .. } => 7,
        Reply::Taken { .. } => 8,
        Reply::Kept => 9,
        Reply::Session { .. } => 10,
    }
}

#[test]
fn answers_as_the_plain_program(rt: HostRuntime) -> Result<(), Fail> {
    let mut generator = Generator {
        state: 12,
        issued: 0,
        opened: 0,
        clock: 1_000,
    };
    let mut shard = Shard::open(rt.alloc(), SETTING.number, &SETTING.sizes)?;
    let mut past: Vec<Answered> = Vec::new(rt.alloc());
    let mut seen = [0u32; 11];
    for step in 0..CALLS {
        let call = generator.call();
        let answered = answer_to(&SETTING, &past, &call);
        assert_eq!(rt; shard.apply(&call), answered.reply);
        let place = place_of(&answered.reply);
        seen[place] = seen[place].saturating_add(1);
        past.push(answered)?;
        if step % 500 == 0 {
            assert_eq!(rt; shard.totals(), count_totals(&past));
        }
    }
    assert!(rt; seen.iter().all(|times| *times >= 20));
    Ok(())
}
