//! The two files of a specification.

/// Which of its two files a specification's items stand in.
#[derive(Clone, Copy, PartialEq, Eq)]
pub enum FileKind {
    /// `.sig`
    Signature,
    /// `.mod`
    Module,
}
