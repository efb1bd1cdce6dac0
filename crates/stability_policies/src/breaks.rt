//! Breaks of the stability policies.

ghost use Rattle.std.specs.Prelude.{◌≡◌};
ghost use Rattle.std.specs.List.{list_any};
ghost use Rattle.stability_policies.specs.Reports.{is_of};

use crate::policy::Policy;
use std::alloc::Global;
use ucd_model::{Copied, ListOf, Memory, Point, SourceFile};

/// A break of a stability policy.
#[derive(Clone, Copy, Debug, PartialEq, Eq)]
pub enum Break {
    /// A code point breaks a policy other than P17.
    At {
        /// The policy.
        policy: Policy,
        /// The code point.
        point: Point,
    },
    /// A row of an alias file of the old release breaks P17.
    Alias {
        /// PropertyAliases.txt or PropertyValueAliases.txt.
        file: SourceFile,
        /// The number of its line in the old file, from 1.
        line: u64,
    },
}

/// Breaks, in the order of a report.
pub type Breaks = ListOf<Break>;

impl Copied for Break {
    fn copied(&self, _alloc: Global) -> Result<Break, Memory> {
        Ok(*self)
    }
}

impl Break {
    /// Whether it is a break of a policy.
    pub fn is_of(&self, policy: Policy) -> bool
        ensures { result ≡ is_of policy self.now }
    {
        match self {
            Break::At { policy: other, .. } => other.place() == policy.place(),
            Break::Alias { .. } => Policy::P17.place() == policy.place(),
        }
    }
}

/// Whether a break of a policy is listed.
pub fn lists(breaks: &Breaks, policy: Policy) -> bool
    ensures { result ≡ list_any (is_of policy) breaks.now }
{
    breaks.as_slice().iter().any(|b| b.is_of(policy))
}
