//! Ages over chains of releases of a few lines.

use crate::samples::{LATER, LETTERS, bench_over, data};
use age_chain::Chain;
use stability_policies::report_text;
use std::alloc::Global;
use std::test::Fail;
use ucd_model::{Point, Text};

/// The letters from A to P as UnicodeData.txt has them, without case mappings.
const CAPITALS: &[&[u8]] = &[
    b"0041;LATIN CAPITAL LETTER A;Lu;0;L;;;;;N;;;;;\n",
    b"0042;LATIN CAPITAL LETTER B;Lu;0;L;;;;;N;;;;;\n",
    b"0043;LATIN CAPITAL LETTER C;Lu;0;L;;;;;N;;;;;\n",
    b"0044;LATIN CAPITAL LETTER D;Lu;0;L;;;;;N;;;;;\n",
    b"0045;LATIN CAPITAL LETTER E;Lu;0;L;;;;;N;;;;;\n",
    b"0046;LATIN CAPITAL LETTER F;Lu;0;L;;;;;N;;;;;\n",
    b"0047;LATIN CAPITAL LETTER G;Lu;0;L;;;;;N;;;;;\n",
    b"0048;LATIN CAPITAL LETTER H;Lu;0;L;;;;;N;;;;;\n",
    b"0049;LATIN CAPITAL LETTER I;Lu;0;L;;;;;N;;;;;\n",
    b"004A;LATIN CAPITAL LETTER J;Lu;0;L;;;;;N;;;;;\n",
    b"004B;LATIN CAPITAL LETTER K;Lu;0;L;;;;;N;;;;;\n",
    b"004C;LATIN CAPITAL LETTER L;Lu;0;L;;;;;N;;;;;\n",
    b"004D;LATIN CAPITAL LETTER M;Lu;0;L;;;;;N;;;;;\n",
    b"004E;LATIN CAPITAL LETTER N;Lu;0;L;;;;;N;;;;;\n",
    b"004F;LATIN CAPITAL LETTER O;Lu;0;L;;;;;N;;;;;\n",
    b"0050;LATIN CAPITAL LETTER P;Lu;0;L;;;;;N;;;;;\n",
];

/// A chain of releases with these lines of UnicodeData.txt, and what it tells.
#[derive(Clone, Copy)]
struct Told {
    releases: &'static [&'static [u8]],
    // the report of the last release against the one before it
    report: &'static [u8],
    text: &'static [u8],
    aged: u32,
    ages: &'static [(u32, Option<u32>)],
}

const TOLD: &[Told] = &[
    Told {
        releases: &[],
        report: b"",
        text: b"# Age\n# total 0\n\n",
        aged: 0,
        ages: &[(0x41, None)],
    },
    Told {
        releases: &[LETTERS],
        report: b"# total 0\n",
        text: b"# Age\n0041 ; 1\n0061 ; 1\n0300..0301 ; 1\n# total 4\n\n",
        aged: 4,
        ages: &[(0x41, Some(1)), (0xE0, None), (0x301, Some(1))],
    },
    Told {
        releases: &[LETTERS, LATER],
        report: b"P01 0041\nP03 0300\nP05 00E0\nP06 0041\nP07 0041\nP08 0041\nP09 0041\n# total 7\n",
        text: b"# Age\n0041 ; 1\n0061 ; 1\n00E0 ; 2\n0300..0301 ; 1\n# total 5\n\n",
        aged: 5,
        ages: &[(0x41, Some(1)), (0xE0, Some(2)), (0x10FFFF, None)],
    },
    Told {
        releases: &[LATER, LETTERS, LATER],
        report: b"P01 0041\nP03 0300\nP05 00E0\nP06 0041\nP07 0041\nP08 0041\nP09 0041\n# total 7\n",
        text: b"# Age\n0041 ; 2\n0061 ; 1\n00E0 ; 1\n0300..0301 ; 1\n# total 5\n\n",
        aged: 5,
        ages: &[(0x41, Some(2)), (0xE0, Some(1))],
    },
    // each release has one letter, and the one before it is gone
    Told {
        releases: CAPITALS,
        report: b"P01 004F\nP06 004F\nP07 004F\nP08 004F\nP09 004F\n# total 5\n",
        text: b"# Age\n0041 ; 1\n0042 ; 2\n0043 ; 3\n0044 ; 4\n0045 ; 5\n0046 ; 6\n0047 ; 7\n0048 ; 8\n0049 ; 9\n004A ; 10\n004B ; 11\n004C ; 12\n004D ; 13\n004E ; 14\n004F ; 15\n0050 ; 16\n# total 16\n\n",
        aged: 16,
        ages: &[
            (0x40, None),
            (0x41, Some(1)),
            (0x50, Some(16)),
            (0x51, None),
        ],
    },
];

/// Puts a release behind the others, and answers the text of its report; an empty text if the chain is full.
fn added(alloc: Global, lines: &'static [u8], chain: &mut Chain) -> Result<Text, Fail> {
    if chain.count() >= 255 {
        return Ok(Text::new(alloc));
    }
    let bench = bench_over(alloc, &data(lines))?;
    let breaks = chain.add(alloc, bench)?;
    Ok(report_text(alloc, &breaks)?)
}

fn is_told(alloc: Global, told: &Told) -> Result<bool, Fail> {
    let mut chain = Chain::new(alloc)?;
    comes_to_tell(alloc, &mut chain, told)
}

fn comes_to_tell(alloc: Global, chain: &mut Chain, told: &Told) -> Result<bool, Fail> {
    let report = last_report(alloc, told.releases, chain)?;
    Ok(report.as_slice() == told.report && tells(alloc, chain, told)?)
}

/// Puts releases behind the others, and answers the text of the last one's report; an empty text for none.
fn last_report(alloc: Global, releases: &[&'static [u8]], chain: &mut Chain) -> Result<Text, Fail> {
    let mut report = Text::new(alloc);
    'releases: for lines in releases {
        report = added(alloc, lines, chain)?;
    }
    Ok(report)
}

fn tells(alloc: Global, chain: &Chain, told: &Told) -> Result<bool, Fail> {
    let text = chain.age_text(alloc)?;
    Ok(
        text.as_slice() == told.text
            && chain.aged_points() == told.aged
            && chain.count() as usize == told.releases.len()
            && chain.last().is_none() == told.releases.is_empty()
            && have_ages(chain, told.ages),
    )
}

fn have_ages(chain: &Chain, ages: &[(u32, Option<u32>)]) -> bool {
    ages.iter().all(|(number, age)| Point::new(*number).is_some_and(|c| chain.age(c) == *age))
}

#[test]
fn ages_are_those_of_the_first_release(rt: HostRuntime) -> Result<(), Fail> {
    for told in TOLD {
        assert!(rt;
            is_told(rt.alloc(), told)?,
            "{} releases",
            told.releases.len()
        );
    }
    Ok(())
}
