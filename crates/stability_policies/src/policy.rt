//! The stability policies.

ghost use Rattle.std.specs.Prelude.{◌≡◌, ◌<◌};
ghost use Rattle.stability_policies.specs.Policies.{place_of_policy, policies};
ghost use Rattle.stability_policies.specs.ReportTexts.{policy_code};

/// A stability policy, in the order of a report. Unicode Character Encoding Stability Policies; UAX #15, section 3;
/// UAX #31, sections 1.1 and 2.5.
#[derive(Clone, Copy, Debug, PartialEq, Eq)]
pub enum Policy {
    /// Assigned code points stay assigned.
    P01,
    /// The name of an assigned code point stays; for a range of code points, its label.
    P02,
    /// The canonical combining class of an assigned code point stays.
    P03,
    /// The decomposition mapping of an assigned code point stays, and whether it is canonical.
    P04,
    /// Primary composites stay, and no new one stands over code points that were assigned before.
    P05,
    /// Code points of ID_Start keep it.
    P06,
    /// Code points of ID_Continue keep it.
    P07,
    /// Code points of XID_Start keep it.
    P08,
    /// Code points of XID_Continue keep it.
    P09,
    /// The folding of the NFKC of an assigned code point stays.
    P10,
    /// Case pairs stay.
    P11,
    /// No new case pair is made of two code points that were assigned before.
    P12,
    /// The category Cc stays.
    P13,
    /// The categories Cs and Co stay.
    P14,
    /// Noncharacter_Code_Point stays.
    P15,
    /// Pattern_Syntax and Pattern_White_Space stay.
    P16,
    /// The names of a property, and those of a value, stay names of one property or value.
    P17,
    /// The second member of a canonical mapping has no canonical mapping.
    P18,
    /// A canonical mapping is in canonical order.
    P19,
    /// Only marks have a canonical combining class other than 0.
    P20,
}

/// The policies, each at its place in the order of a report.
pub const POLICIES: [Policy; 20] = [
    Policy::P01,
    Policy::P02,
    Policy::P03,
    Policy::P04,
    Policy::P05,
    Policy::P06,
    Policy::P07,
    Policy::P08,
    Policy::P09,
    Policy::P10,
    Policy::P11,
    Policy::P12,
    Policy::P13,
    Policy::P14,
    Policy::P15,
    Policy::P16,
    Policy::P17,
    Policy::P18,
    Policy::P19,
    Policy::P20,
];

impl Policy {
    /// The policies in the order of their places.
    pub fn all() -> &'static [Policy]
        ensures { result.now ≡ policies }
    {
        &POLICIES
    }

    /// Its place in the order of a report, from 0.
    pub fn place(self) -> usize
        ensures place { result ≡ place_of_policy self }
        ensures below { result < 20 }
    {
        self as usize
    }

    /// Its code, as a report prints it.
    pub fn code(self) -> &'static [u8]
        ensures { result.now ≡ policy_code self }
    {
        match self {
            Policy::P01 => b"P01",
            Policy::P02 => b"P02",
            Policy::P03 => b"P03",
            Policy::P04 => b"P04",
            Policy::P05 => b"P05",
            Policy::P06 => b"P06",
            Policy::P07 => b"P07",
            Policy::P08 => b"P08",
            Policy::P09 => b"P09",
            Policy::P10 => b"P10",
            Policy::P11 => b"P11",
            Policy::P12 => b"P12",
            Policy::P13 => b"P13",
            Policy::P14 => b"P14",
            Policy::P15 => b"P15",
            Policy::P16 => b"P16",
            Policy::P17 => b"P17",
            Policy::P18 => b"P18",
            Policy::P19 => b"P19",
            Policy::P20 => b"P20",
        }
    }
}
