//! What people are told of the plans by which regions were run.
use dp_commit::{Chosen, Ran};
use dp_edge::MemSink;
use dp_messages::{Choices, tell_choices};
use std::test::Fail;

const TOLD: &str = "\
dswp: region 1: one stage 4096, epochs 1, ms 2; whole loops 65535, epochs 2, ms 31; own plan 13, epochs 12, ms 0; again 5; switches 3; ms 36
dswp: region 3: one stage 0, epochs 0, ms 0; whole loops 0, epochs 0, ms 0; own plan 7, epochs 1, ms 10; again 0; switches 0; ms 11
";

/// Regions with what was run of them.
fn runs() -> [(u32, Chosen); 2] {
    let nothing = Chosen::nothing();
    [
        (
            1,
            Chosen {
                one_stage: ran(4_096, 1, 2_000_000),
                whole_loops: ran(65_535, 2, 31_999_999),
                own: ran(13, 12, 999_999),
                again: 5,
                switches: 3,
                nanoseconds: 36_000_001,
            },
        ),
        (
            3,
            Chosen {
                own: ran(7, 1, 10_500_000),
                nanoseconds: 11_000_000,
                ..nothing
            },
        ),
    ]
}

fn ran(iterations: u64, epochs: u64, nanoseconds: u64) -> Ran {
    Ran {
        iterations,
        epochs,
        nanoseconds,
    }
}

#[test]
fn choices_are_told(rt: HostRuntime) -> Result<(), Fail> {
    let alloc = rt.alloc();
    for (asked, text) in [(true, TOLD), (false, "")] {
        let mut choices = Choices::new(alloc, asked);
        for (region, chosen) in runs() {
            choices.add(region, chosen);
        }
        let mut sink = MemSink::new(alloc, None);
        let told = tell_choices(alloc, &choices, &mut sink);
        assert!(rt; told.is_ok(), "{asked}");
        assert_eq!(rt;
            str::from_utf8(sink.bytes()).unwrap_or("no text"),
            text,
            "{asked}"
        );
    }
    Ok(())
}
