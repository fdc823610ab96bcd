//! Worked rows: a moment, what is asked of the nonce or exchange of a serial, and the reply.
ghost use Rattle.std.specs.Prelude.{IfSome};
ghost use Rattle.nonce_shard.specs.Replies.{Fits};
ghost use Rattle.nonce_shard.specs.Sizes.{AreValid};

use crate::calls::{Call, Exchange, ExchangeFlag, NonceKind, Reply, What};
use crate::journal::JournalTable;
use crate::names::{NameKind, TableName};
use crate::seat::TableSeat;
use crate::sizes::Sizes;
use arrayvec::ArrayVec;
use std::alloc::Global;
use std::process::Abort;
use std::test::Fail;

fn named(kind: NameKind, serial: u64) -> TableName {
    TableName {
        kind,
        shard: 0,
        serial,
        random: [0; 16],
    }
}

/// What one of these words asks of the nonce or the exchange of a serial; a use is of this count.
fn asked(word: &str, serial: u64, count: u32) -> Option<What>
    ensures { IfSome result Fits }
{
    let nonce = named(NameKind::Nonce, serial);
    let sid = named(NameKind::Exchange, serial);
    let what = match word {
        "issue" => What::Issue {
            kind: NonceKind::Both,
            space: 0,
            random: [0; 16],
        },
        "peek" => What::Peek { nonce, space: 0 },
        "digest" if count > 0 => What::Use {
            nonce,
            kind: NonceKind::Digest,
            space: 0,
            count,
            prime: None,
        },
        "scram" if count > 0 => What::Use {
            nonce,
            kind: NonceKind::Scram,
            space: 0,
            count,
            prime: None,
        },
        "open" => What::Open {
            space: 0,
            random: [0; 16],
            exchange: Exchange {
                flag: ExchangeFlag::Y,
                bare: ArrayVec::new(),
            },
        },
        "take" => What::Take { sid, space: 0 },
        "keep" => What::Keep { sid, space: 0 },
        "recall" => What::Recall { sid, space: 0 },
        _ => return None,
    };
    Some(what)
}

/// The call of a line such as `1300 digest 0 1`.
fn call_of(line: &str) -> Option<Call>
    ensures { IfSome result (λ call. Fits call.what) }
{
    let mut words = line.split_whitespace();
    let moment = words.next()?.parse().ok()?;
    let word = words.next()?;
    let serial = words.next()?.parse().ok()?;
    let count = words.next()?.parse().ok()?;
    let what = asked(word, serial, count)?;
    Some(Call { moment, what })
}

fn sizes_of(small: bool) -> Sizes
    ensures { AreValid result }
{
    if small {
        Sizes {
            nonces: 4,
            exchanges: 2,
            uses: 2,
            ..Sizes::single()
        }
    } else {
        Sizes::standard()
    }
}

/// Makes the call of each line at a new table that takes this number of calls, and compares the
/// replies.
fn expect_replies(
    rt: &impl Abort,
    alloc: Global,
    calls: u32,
    small: bool,
    rows: &str,
) -> Result<(), Fail> {
    let mut table = JournalTable::open(alloc, calls, &sizes_of(small))?;
    for row in rows.lines() {
        let Some((line, wanted)) = row.split_once(": ") else {
            assert!(rt; false);
            continue;
        };
        let Some(call) = call_of(line) else {
            assert!(rt; false);
            continue;
        };
        let reply = table.call(0, &call);
        let told = format!(in alloc; "{reply:?}")?;
        assert_eq!(rt; told.as_str(), wanted);
    }
    Ok(())
}

const WINDOW: &str = "\
0 issue 0 0: Ok(Issued { serial: 0 })
0 digest 0 200: Ok(Fresh { uses: 1 })
0 scram 0 73: Ok(Fresh { uses: 2 })
0 digest 0 72: Ok(Behind { high: 200 })
0 digest 0 73: Ok(Repeated)
0 digest 0 74: Err(Worn { calls: 5 })";

const LATER_WINDOW: &str = "\
0 issue 0 0: Ok(Issued { serial: 0 })
0 digest 0 1: Ok(Fresh { uses: 1 })
0 digest 0 129: Ok(Fresh { uses: 2 })
0 digest 0 1: Ok(Behind { high: 129 })
0 digest 0 2: Ok(Fresh { uses: 3 })
0 digest 0 129: Ok(Repeated)";

const TIMES: &str = "\
1000 issue 0 0: Ok(Issued { serial: 0 })
1300 digest 0 1: Ok(Fresh { uses: 1 })
1301 digest 0 2: Ok(Gone)
10 digest 0 2: Ok(Gone)
1301 peek 0 0: Ok(Gone)";

const USES: &str = "\
0 issue 0 0: Ok(Issued { serial: 0 })
0 digest 0 1: Ok(Fresh { uses: 1 })
0 digest 0 1: Ok(Repeated)
0 peek 0 0: Ok(Prime { prime: None })
0 scram 0 2: Ok(Fresh { uses: 2 })
0 digest 0 1: Ok(Gone)
0 peek 0 0: Ok(Gone)
0 issue 0 0: Ok(Issued { serial: 1 })
0 digest 1 1: Ok(Fresh { uses: 1 })";

const RINGS: &str = "\
0 issue 0 0: Ok(Issued { serial: 0 })
0 issue 0 0: Ok(Issued { serial: 1 })
0 issue 0 0: Ok(Issued { serial: 2 })
0 issue 0 0: Ok(Issued { serial: 3 })
0 issue 0 0: Ok(Issued { serial: 4 })
0 digest 0 1: Ok(Gone)
0 digest 1 1: Ok(Fresh { uses: 1 })
0 open 0 0: Ok(Opened { serial: 0 })
0 open 0 0: Ok(Opened { serial: 1 })
0 open 0 0: Ok(Opened { serial: 2 })
0 take 0 0: Ok(Gone)
0 take 1 0: Ok(Taken { exchange: Exchange { flag: Y, bare: [] } })";

const EXCHANGE: &str = "\
0 open 0 0: Ok(Opened { serial: 0 })
60 keep 0 0: Ok(Gone)
60 take 0 0: Ok(Taken { exchange: Exchange { flag: Y, bare: [] } })
60 take 0 0: Ok(Gone)
60 recall 0 0: Ok(Gone)
61 keep 0 0: Ok(Kept)
61 keep 0 0: Ok(Gone)
3661 recall 0 0: Ok(Session { exchange: Exchange { flag: Y, bare: [] } })
3662 recall 0 0: Ok(Gone)
3662 open 0 0: Ok(Opened { serial: 1 })
3723 take 1 0: Ok(Gone)";

#[test]
fn windows_lives_and_rings_decide_each_reply(rt: HostRuntime) -> Result<(), Fail> {
    for (calls, small, rows) in [
        (5, false, WINDOW),
        (16, false, LATER_WINDOW),
        (16, false, TIMES),
        (16, true, USES),
        (16, true, RINGS),
        (16, false, EXCHANGE),
    ] {
        expect_replies(&rt, rt.alloc(), calls, small, rows)?;
    }
    Ok(())
}

#[test]
fn holds_4096_nonces(rt: HostRuntime) -> Result<(), Fail> {
    let mut table = JournalTable::open(rt.alloc(), 4100, &Sizes::single())?;
    let issue = Call {
        moment: 0,
        what: What::Issue {
            kind: NonceKind::Digest,
            space: 0,
            random: [0; 16],
        },
    };
    let used = Call {
        moment: 0,
        what: What::Use {
            nonce: named(NameKind::Nonce, 0),
            kind: NonceKind::Digest,
            space: 0,
            count: 1,
            prime: None,
        },
    };
    for _ in 0..4096 {
        let _ = table.call(0, &issue)?;
    }
    assert_eq!(rt; table.call(0, &used)?, Reply::Fresh { uses: 1 });
    let _ = table.call(0, &issue)?;
    assert_eq!(rt; table.call(0, &used)?, Reply::Gone);
    Ok(())
}

#[test]
fn names_by_their_texts(rt: HostRuntime) {
    let first = b"AQAAAAAAAAAAAAAAAAAAAAAAAAAAAAAAAAAA";
    let next = b"AQAAAAAAAAAAAAEAAAAAAAAAAAAAAAAAAAAA";
    let nonce = named(NameKind::Nonce, 0);
    let second = named(NameKind::Nonce, 1);
    assert_eq!(rt; nonce.text(), *first);
    assert_eq!(rt; second.text(), *next);
    assert_eq!(rt; TableName::read(first), Some(nonce));
    assert_eq!(rt; TableName::read(next), Some(second));
    assert_eq!(rt; TableName::read(&first[1..]), None);
    assert_eq!(rt;
        TableName::read(b"AwAAAAAAAAAAAAAAAAAAAAAAAAAAAAAAAAAA"),
        None
    );
}
