//! Runs of `ages` that write both files.

use crate::runs::{AGES_PATH, EARLIER, LATER, STEPS_PATH, ends, shelf_of};
use run_tests::runs::holds;
use std::alloc::Global;
use std::test::Fail;
use ucd_model::Memory;
use ucdshop_more_core::Status;

/// A run of `ages` over the two releases in `p` and `d`: its words, how it ends, and the two files.
#[derive(Clone, Copy)]
struct Aged {
    words: &'static [&'static [u8]],
    status: Status,
    summary: &'static [u8],
    ages: &'static [u8],
    steps: &'static [u8],
}

const RUNS: [Aged; 5] = [
    // the step from the earlier to the later release
    Aged {
        words: &[b"ages", b"o", b"p", b"d"],
        status: Status::Done,
        summary: b"ages: 2 releases, 5 code points, 7 breaks\n",
        ages: b"# Age\n0041 ; 1\n0061 ; 1\n00E0 ; 2\n0300..0301 ; 1\n# total 5\n\n",
        steps: b"# step 2\nP01 0041\nP03 0300\nP05 00E0\nP06 0041\nP07 0041\nP08 0041\nP09 0041\n# total 7\n",
    },
    // one release has no step
    Aged {
        words: &[b"ages", b"o", b"p"],
        status: Status::Clean,
        summary: b"ages: 1 releases, 4 code points, 0 breaks\n",
        ages: b"# Age\n0041 ; 1\n0061 ; 1\n0300..0301 ; 1\n# total 4\n\n",
        steps: b"",
    },
    // a release that is the one before breaks nothing; steps are told by the release that they lead to
    Aged {
        words: &[b"ages", b"o", b"p", b"p", b"d"],
        status: Status::Done,
        summary: b"ages: 3 releases, 5 code points, 7 breaks\n",
        ages: b"# Age\n0041 ; 1\n0061 ; 1\n00E0 ; 3\n0300..0301 ; 1\n# total 5\n\n",
        steps: b"# step 2\n# total 0\n# step 3\nP01 0041\nP03 0300\nP05 00E0\nP06 0041\nP07 0041\nP08 0041\nP09 0041\n# total 7\n",
    },
    Aged {
        words: &[b"ages", b"o", b"p", b"d", b"d"],
        status: Status::Done,
        summary: b"ages: 3 releases, 5 code points, 7 breaks\n",
        ages: b"# Age\n0041 ; 1\n0061 ; 1\n00E0 ; 2\n0300..0301 ; 1\n# total 5\n\n",
        steps: b"# step 2\nP01 0041\nP03 0300\nP05 00E0\nP06 0041\nP07 0041\nP08 0041\nP09 0041\n# total 7\n# step 3\n# total 0\n",
    },
    // as many releases as there may be
    Aged {
        words: &[
            b"ages", b"o", b"p", b"p", b"p", b"p", b"p", b"p", b"p", b"p", b"p", b"p", b"p", b"p",
            b"p", b"p", b"p", b"p",
        ],
        status: Status::Clean,
        summary: b"ages: 16 releases, 4 code points, 0 breaks\n",
        ages: b"# Age\n0041 ; 1\n0061 ; 1\n0300..0301 ; 1\n# total 4\n\n",
        steps: b"# step 2\n# total 0\n# step 3\n# total 0\n# step 4\n# total 0\n# step 5\n# total 0\n# step 6\n# total 0\n# step 7\n# total 0\n# step 8\n# total 0\n# step 9\n# total 0\n# step 10\n# total 0\n# step 11\n# total 0\n# step 12\n# total 0\n# step 13\n# total 0\n# step 14\n# total 0\n# step 15\n# total 0\n# step 16\n# total 0\n",
    },
];

/// Whether a run ends as it should, and keeps the files of others.
///
/// - `Memory`: memory ran out.
fn ends_so(alloc: Global, aged: &Aged) -> Result<bool, Memory> {
    let mut shelf = shelf_of(alloc, EARLIER, LATER)?;
    let expected = (aged.status, aged.summary);
    Ok(
        ends(alloc, aged.words, &mut shelf, 1000, expected)?
            && holds(&shelf, &[(AGES_PATH, aged.ages), (STEPS_PATH, aged.steps)])
            && holds(
                &shelf,
                &[(b"o/other", b"kept"), (b"p/UnicodeData.txt", EARLIER)],
            ),
    )
}

#[test]
fn each_release_has_its_ages_and_its_step(rt: HostRuntime) -> Result<(), Fail> {
    for aged in &RUNS {
        assert!(rt; ends_so(rt.alloc(), aged)?);
    }
    Ok(())
}

/// A folder that is read may be written into, since all is read before.
fn keeps_what_it_read(alloc: Global) -> Result<bool, Memory> {
    let mut shelf = shelf_of(alloc, EARLIER, LATER)?;
    let words: [&[u8]; 4] = [b"ages", b"p", b"p", b"d"];
    let expected = (RUNS[0].status, RUNS[0].summary);
    Ok(
        ends(alloc, &words, &mut shelf, 1000, expected)?
            && holds(
                &shelf,
                &[
                    (b"p/DerivedAge.txt", RUNS[0].ages),
                    (b"p/UnicodeData.txt", EARLIER),
                    (b"o/steps.txt", b"old"),
                ],
            ),
    )
}

#[test]
fn a_folder_of_a_release_may_be_written_into(rt: HostRuntime) -> Result<(), Fail> {
    assert!(rt; keeps_what_it_read(rt.alloc())?);
    Ok(())
}
