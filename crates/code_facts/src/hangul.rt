//! Hangul syllables. The Unicode Standard, section 3.12.

ghost use Rattle.std.specs.Prelude.{◌≡◌, ◌<◌, ◌≤◌, ℕ, true, false, ◌&&◌, MatchOption};
ghost use Rattle.ucd_facts.specs.Facts.{within, is_hangul_syllable, hangul_mapping};

use fact_tables::point;
use ucd_facts::{Point, Span};

const S_BASE: u32 = 0xAC00;

const S_LAST: u32 = 0xD7A3;

const L_BASE: u32 = 0x1100;

const V_BASE: u32 = 0x1161;

const T_BASE: u32 = 0x11A7;

const T_COUNT: u32 = 28;

const N_COUNT: u32 = 588;

/// The syllables of a span; `None` if it has none. The Unicode Standard, section 3.12.
pub fn syllables(span: Span) -> Option<Span>
    ensures { MatchOption result ((c : ℕ) → (within c span && is_hangul_syllable c) ≡ false)
        (λ part. (c : ℕ) → within c part ≡ (within c span && is_hangul_syllable c)) }
{
    let first = span.first().max(S_BASE);
    let last = span.last().min(S_LAST);
    if first > last {
        None
    } else {
        Some(Span {
            lo: point(first),
            hi: point(last),
        })
    }
}

/// The mapping of a syllable: LV and T, or L and V if there is no T. The Unicode Standard, section 3.12.
pub fn hangul_mapping(syllable: Point) -> [Point; 2]
    requires { is_hangul_syllable syllable ≡ true }
    ensures { result ≡ hangul_mapping syllable }
{
    let index = syllable.number() - S_BASE;
    let ending = index % T_COUNT;
    if ending == 0 {
        [
            point(L_BASE + index / N_COUNT),
            point(V_BASE + index % N_COUNT / T_COUNT),
        ]
    } else {
        [point(syllable.number() - ending), point(T_BASE + ending)]
    }
}
