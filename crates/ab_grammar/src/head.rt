//! The heads of the table of commands: what each command begins with, and where it stands.

/// The head of a command that is no proof command.
#[derive(Clone, Copy)]
pub enum Head {
    Kind,
    /// `Type`
    Typed,
    Define,
    CoDefine,
    Theorem,
    Specification,
    Query,
    Show,
    Quit,
    Set,
    /// `#back`
    Back,
    /// `#reset`
    Reset,
    Undo,
    Abort,
}

/// The head of a proof command.
#[derive(Clone, Copy)]
pub enum ProofHead {
    Intros,
    Induction,
    Coinduction,
    Case,
    Apply,
    Backchain,
    Cut,
    Inst,
    Monotone,
    Search,
    Skip,
    Split,
    Left,
    Right,
    Exists,
    Witness,
    Unfold,
    Assert,
    Clear,
    Rename,
    Permute,
}

/// Where a command stands.
#[derive(Clone, Copy)]
pub enum Stand {
    /// Outside proofs.
    Outside,
    /// In a proof.
    Inside,
    /// Outside proofs and in them.
    Anywhere,
}
