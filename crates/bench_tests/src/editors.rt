//! Several editors at a desk over a release of a few lines.

ghost use Rattle.std.specs.Prelude.{◌≡◌, IfOk};
ghost use Rattle.bench_editors.specs.Desks.{IsEvent};
ghost use Rattle.std.specs.List.{All};

use crate::groups::{Edit, GRAVE, group_of};
use bench_editors::{Desk, Event, Reply};
use edit_session::{Bench, Refused};
use release_rows::{KeyRule, Release};
use std::alloc::Global;
use std::marker::Brand;
use std::sync::ledger::{Blank, Ledger};
use std::test::Fail;
use ucd_model::{Point, SourceFile, Steps};

/// An event, as it is written down.
#[derive(Clone, Copy)]
enum Act {
    /// The editor comes.
    Enter(u32),
    /// The editor proposes a group against a revision.
    Propose(u32, u32),
    /// The editor leaves.
    Leave(u32),
}

/// What a reply says. The code points that differ are one number.
#[derive(Clone, Copy, PartialEq, Debug)]
enum Told {
    Entered(u32),
    Accepted(u32, u64),
    Left,
    Present,
    Absent,
    Ahead(u32),
    Stale(u32, u32),
    BreaksKey(KeyRule, u32),
    NotValid,
}

/// One more code point in the number of those before: three of them lie side by side.
fn with_point(before: u64, number: u32) -> u64 {
    before
        .wrapping_mul(0x20_0000)
        .wrapping_add(u64::from(number))
}

/// Code points as one number.
fn as_number(points: &[Point]) -> u64 {
    points
        .iter()
        .fold(0, |before, c| with_point(before, c.number()))
}

/// What this reply says.
fn in_words(reply: &Reply) -> Told {
    match reply {
        Reply::Entered { revision } => Told::Entered(*revision),
        Reply::Accepted { revision, changed } => {
            Told::Accepted(*revision, as_number(changed.as_slice()))
        }
        Reply::Left => Told::Left,
        Reply::Present => Told::Present,
        Reply::Absent => Told::Absent,
        Reply::Ahead { revision } => Told::Ahead(*revision),
        Reply::Stale { revision, op } => Told::Stale(*revision, *op),
        Reply::Refused(Refused::Key { rule, op }) => Told::BreaksKey(*rule, *op),
        Reply::Refused(Refused::Valid { .. }) => Told::NotValid,
    }
}

/// A proposal as an event.
fn proposal_of(alloc: Global, editor: u32, base: u32, edits: &[Edit]) -> Result<Event, Fail>
    ensures { IfOk result IsEvent }
{
    let group = group_of(alloc, edits)?;
    if group.len() > 4096 {
        return Err(Fail::new("a long group"));
    }
    Ok(Event::Propose {
        editor,
        base,
        group,
    })
}

/// What is written down as an event; a proposal has these edits.
fn event_of(alloc: Global, act: Act, edits: &[Edit]) -> Result<Event, Fail>
    ensures { IfOk result IsEvent }
{
    match act {
        Act::Enter(editor) => Ok(Event::Enter { editor }),
        Act::Propose(editor, base) => proposal_of(alloc, editor, base, edits),
        Act::Leave(editor) => Ok(Event::Leave { editor }),
    }
}

/// The events, one after the other.
fn events_of(alloc: Global, acts: &[(Act, &[Edit])]) -> Result<Vec<Event>, Fail>
    ensures { IfOk result (λ events. All IsEvent events.items) }
{
    let mut events = Vec::new(alloc);
    'acts: for (act, edits) in acts {
        events.push(event_of(alloc, *act, edits)?)?;
    }
    Ok(events)
}

/// Whether a desk over the bench answers the events so, all at once.
fn answers_so<L: Ledger>(
    alloc: Global,
    bench: Bench,
    acts: &[(Act, &[Edit])],
    expected: &[Told],
    steps: &mut Steps<L>,
) -> Result<bool, Fail> {
    let mut desk = Desk::new(alloc, bench);
    desk_answers(alloc, &mut desk, acts, expected, steps)
}

/// Whether a desk at which nobody was yet answers the events so.
fn desk_answers<L: Ledger>(
    alloc: Global,
    desk: &mut Desk,
    acts: &[(Act, &[Edit])],
    expected: &[Told],
    steps: &mut Steps<L>,
) -> Result<bool, Fail> {
    let events = events_of(alloc, acts)?;
    if desk.revision() > 0 || events.len() > 4096 {
        return Ok(false);
    }
    let replies = desk.run_events(events.as_slice(), steps)?;
    Ok(are_told(replies.as_slice(), expected))
}

fn are_told(replies: &[Reply], expected: &[Told]) -> bool {
    replies.iter().map(in_words).eq(expected.iter().copied())
}

/// Whether a desk answers the events so, all at once. It stands over the lines [`GRAVE`] of UnicodeData.txt, with all other files empty.
fn all_answered<L: Ledger>(
    alloc: Global,
    acts: &[(Act, &[Edit])],
    expected: &[Told],
    blank: Blank,
) -> Result<bool, Fail>
    requires name { blank.name ≡ L.name }
    requires parts { blank.parts ≡ L.parts }
    requires some { blank.parts ≡ 1 }
{
    let mut steps = Steps::<L>::new(blank);
    let mut release = Release::empty(alloc);
    release.load_file(SourceFile::UnicodeData, GRAVE)?;
    let Ok(bench) = Bench::open(alloc, release, &mut steps) else {
        return Ok(false);
    };
    answers_so(alloc, bench, acts, expected, &mut steps)
}

/// Whether a desk over the letter, its mark and its parts answers the events so.
fn are_answered(alloc: Global, acts: &[(Act, &[Edit])], expected: &[Told]) -> Result<bool, Fail> {
    all_answered::<Brand>(alloc, acts, expected, Blank::new(1))
}

#[test]
fn one_key_has_many_spellings(rt: HostRuntime) -> Result<(), Fail> {
    const RULE: Edit = Edit::Add(
        SourceFile::SpecialCasing,
        b"00C0; 00C0; 00C0; 00C0; tr  More_Above;",
    );
    const AGAIN: Edit = Edit::Withdraw(SourceFile::SpecialCasing, b"00C0;tr More_Above");
    let acts: [(Act, &[Edit]); 4] = [
        (Act::Enter(1), &[]),
        (Act::Propose(1, 0), &[RULE]),
        (Act::Propose(1, 0), &[AGAIN]),
        (Act::Leave(3), &[]),
    ];
    let expected = [
        Told::Entered(0),
        Told::Accepted(1, 0),
        Told::Stale(1, 1),
        Told::Absent,
    ];
    assert!(rt; are_answered(rt.alloc(), &acts, &expected)?);
    Ok(())
}
