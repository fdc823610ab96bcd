//! Drills that a seed generates.
use super::{Failing, NONE, check, link_of, run_over};
use std::test::Fail;

#[test]
fn drills_print_their_lines(rt: HostRuntime) -> Result<(), Fail> {
    let alloc = rt.alloc();
    let one = "steps 1 made 0 delivered 0 admitted 0 stale 0 refused 0\n";
    let long = "steps 4096 made 1694 delivered 1564 admitted 91 stale 1473 refused 0\n";
    let rows = [
        ("drill --seed=1 --steps=1", one),
        ("drill --steps=1 --seed=1", one),
        ("drill --seed=0 --steps=1", one),
        ("drill --seed=18446744073709551615 --steps=1", one),
        ("drill --seed=1 --steps=4096", long),
        ("drill --steps=4096 --seed=1", long),
    ];
    for (words, line) in rows {
        let mut link = link_of(alloc, b"a b=c", 2, NONE)?;
        let ran = run_over(alloc, words, &mut link, vec![in alloc]?, NONE)?;
        check(&rt, &ran, 0, line.as_bytes(), b"", words.as_bytes());
        assert_eq!(rt; (ran.reads, ran.asked), (0, 0), "calls of {words:?}");
    }
    Ok(())
}

#[test]
fn a_line_that_cannot_be_written_is_a_fault(rt: HostRuntime) -> Result<(), Fail> {
    let alloc = rt.alloc();
    let failing = Failing { write: 2, ..NONE };
    let words = "drill --seed=1 --steps=1";
    let mut link = link_of(alloc, b"", 2, failing)?;
    let ran = run_over(alloc, words, &mut link, vec![in alloc]?, failing)?;
    check(&rt, &ran, 4, b"ste", b"", words.as_bytes());
    Ok(())
}
