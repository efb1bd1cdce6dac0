//! Which files were edited since something was made of their rows.

/// Which of the files that tell names or values were edited since something was made of their rows.
#[derive(Clone, Copy, Debug)]
pub struct Edited {
    /// PropList.txt.
    pub listed: bool,
    /// Scripts.txt.
    pub scripts: bool,
    /// WordBreakProperty.txt.
    pub breaks: bool,
    /// PropertyAliases.txt or PropertyValueAliases.txt.
    pub aliases: bool,
}
