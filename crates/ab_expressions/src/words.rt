//! The words with which commands begin, and those that mean something inside.
ghost use Rattle.std.specs.Prelude.{◌≡◌, map};
ghost use Rattle.ab_grammar.specs.CommandTable.{listed, takes_label as takes_label_of};

use ab_grammar::{Head, ProofHead};

/// The words with which commands begin that are no proof commands.
pub const COMMANDS: [(&[u8], Head); 12] = [
    (b"Kind", Head::Kind),
    (b"Type", Head::Typed),
    (b"Define", Head::Define),
    (b"CoDefine", Head::CoDefine),
    (b"Theorem", Head::Theorem),
    (b"Specification", Head::Specification),
    (b"Query", Head::Query),
    (b"Show", Head::Show),
    (b"Quit", Head::Quit),
    (b"Set", Head::Set),
    (b"undo", Head::Undo),
    (b"abort", Head::Abort),
];

/// The words with which proof commands begin; the reserved word `exists` begins one too.
pub const PROOF_COMMANDS: [(&[u8], ProofHead); 20] = [
    (b"intros", ProofHead::Intros),
    (b"induction", ProofHead::Induction),
    (b"coinduction", ProofHead::Coinduction),
    (b"case", ProofHead::Case),
    (b"apply", ProofHead::Apply),
    (b"backchain", ProofHead::Backchain),
    (b"cut", ProofHead::Cut),
    (b"inst", ProofHead::Inst),
    (b"monotone", ProofHead::Monotone),
    (b"search", ProofHead::Search),
    (b"skip", ProofHead::Skip),
    (b"split", ProofHead::Split),
    (b"left", ProofHead::Left),
    (b"right", ProofHead::Right),
    (b"witness", ProofHead::Witness),
    (b"unfold", ProofHead::Unfold),
    (b"assert", ProofHead::Assert),
    (b"clear", ProofHead::Clear),
    (b"rename", ProofHead::Rename),
    (b"permute", ProofHead::Permute),
];

/// What a table lists for a word.
pub fn lookup<T: Copy>(table: &[(&[u8], T)], word: &[u8]) -> Option<T>
    ensures { result ≡ listed (map (λ row. (row.0.now, row.1)) table.now) word.now }
{
    for (known, meaning) in table {
        if word == *known {
            return Some(*meaning);
        }
    }
    None
}

/// Whether a label may stand before a proof command.
pub fn takes_label(head: ProofHead) -> bool
    ensures { result ≡ takes_label_of head }
{
    match head {
        ProofHead::Induction
        | ProofHead::Coinduction
        | ProofHead::Case
        | ProofHead::Apply
        | ProofHead::Cut
        | ProofHead::Inst
        | ProofHead::Monotone
        | ProofHead::Assert => true,
        ProofHead::Intros
        | ProofHead::Backchain
        | ProofHead::Search
        | ProofHead::Skip
        | ProofHead::Split
        | ProofHead::Left
        | ProofHead::Right
        | ProofHead::Exists
        | ProofHead::Witness
        | ProofHead::Unfold
        | ProofHead::Clear
        | ProofHead::Rename
        | ProofHead::Permute => false,
    }
}
