//! The run of the made program: its line, and the text of its run.
use super::{answer_to, each, each_crew, expect};
use std::test::Fail;

/// The seed and the size; how often each of 16 numbers comes and their sum, and the iterations.
const MADE: &[&str] = &[
    "gen $1 => gen $1\nstate\nhist$2\nregion 1 iterations $3 recovered 0\nend done\n",
    "1 1 => 1 1 |  0 0 0 0 0 0 0 0 0 0 1 0 0 0 0 0\nsum 10 | 2",
    "0 1 => 0 1 |  0 0 0 0 0 0 0 0 0 0 0 0 0 1 0 0\nsum 13 | 2",
    "2147483647 3 => 2147483647 3 |  1 0 0 0 0 0 0 0 0 1 0 0 0 0 1 0\nsum 23 | 4",
    "5 17 => 5 17 |  1 1 1 1 1 1 1 1 1 1 1 1 1 1 2 1\nsum 134 | 18",
    "007 +00020 => 7 20 |  1 2 1 1 1 1 2 2 2 1 1 1 1 1 1 1\nsum 142 | 21",
    "7 20000 => 7 20000 | `16* 1250`\nsum 150000 | 20001",
];

const LARGEST: &[&str] = &[
    "gen $1 => gen $1\nstate\nhist`16* 4096`\nsum 491520\nregion 1 iterations 65537 recovered 0\nend done\n",
    "12345 65536 => 12345 65536",
];

/// How much room there is, and what is written.
const CUT_OFF: [(u64, &[u8]); 3] = [(0, b""), (3, b"gen"), (10, b"gen 1 1\nst")];

#[test]
fn the_made_program_is_run(rt: HostRuntime) -> Result<(), Fail> {
    each_crew(&rt, rt.alloc(), MADE)?;
    each(&rt, rt.alloc(), LARGEST)?;
    Ok(())
}

#[test]
fn a_failed_write_ends_the_line_or_the_text(rt: HostRuntime) -> Result<(), Fail> {
    for (room, written) in CUT_OFF {
        let answered = answer_to(&rt, rt.alloc(), "gen 1 1", &[], &[], Some(room))?;
        expect(&rt, &answered, written, 6, "", "");
    }
    Ok(())
}

/// No text is read, so no read can fail.
#[test]
fn each_iteration_is_committed(rt: HostRuntime) -> Result<(), Fail> {
    let answered = answer_to(&rt, rt.alloc(), "gen 5 17", &[], &[1], None)?;
    assert_eq!(&rt; answered.status, 0);
    assert_eq!(&rt; answered.committed, 18);
    Ok(())
}
