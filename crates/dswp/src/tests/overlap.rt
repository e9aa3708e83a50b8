//! Stages and workers overlap in time: one is held until another has come.
use super::{answer_at, expect};
use dp_edge::HoldGate;
use std::test::Fail;

/// Stage 2 is held here: the units have threads of their own by then.
const HELD: (u32, u64) = (2, 508);

/// The stage and the iteration that are awaited meanwhile, for how many turns, with how many workers, and whether they come. The
/// iteration is the first of the next batch: a worker that is held has the rest of the batch that it took.
const AWAITED: [((u32, u64), u64, &str, bool); 4] = [
    ((1, 512), 1_000_000, "1", true),
    ((1, 512), 1_000_000, "2", true),
    ((2, 512), 1_000_000, "2", true),
    ((2, 512), 1_000, "1", false),
];

#[test]
fn one_stage_waits_for_another(rt: HostRuntime) -> Result<(), Fail> {
    let plan = b"plan 1\nregion 1 words 4096\nseq 2 3 4\npar 5\nseq 6\nend\n";
    let mut words = Vec::new(rt.alloc());
    for _ in 0..150 {
        words.extend_from_slice(b"0 1 2 3 ")?;
    }
    let held = [("in.txt", words.as_slice()), ("plan.txt", plan.as_slice())];
    let text = b"state\nh 150 150 150 150\nregion 1 iterations 601 recovered 0\nend done\n";
    for (awaited, turns, workers, comes) in AWAITED {
        let gate = HoldGate::new(HELD, awaited, turns);
        let call = format!(in rt.alloc();
            "run histogram.c in.txt --plan plan.txt --lane 1 --workers {workers}"
        )?;
        let answered = answer_at(&rt, rt.alloc(), &call, &held, &[], None, &gate)?;
        expect(&rt, &answered, text, 0, &call, "");
        assert_eq!(&rt; gate.came(), comes, "{workers} workers");
    }
    Ok(())
}
