//! The parts of a certificate, as the reader goes through them, and how each begins.
ghost use Rattle.std.specs.Prelude.{◌≡◌};
ghost use Rattle.ab_cert.specs.Grammar.{count_lead as counted_lead, lead_of as lead_of_part, starts_line as starts_line_of};
ghost use Rattle.ab_cert.specs.Leads.{lead_meant};

/// A part that is to be read.
#[derive(Clone, Copy)]
pub(crate) enum Part {
    /// The whole.
    Whole,
    /// The whole behind its first word.
    Version,
    /// Items, and the last line.
    Items,
    /// The clauses of a block, with their number, and the items behind it.
    Clauses,
    /// The number of a theorem's steps, its formula, its steps, and the items behind it.
    Proof,
    Step,
    Clause,
    Name,
    Label,
    Flag,
    /// Whether a block is inductive.
    Letter,
    Place,
    /// A number of thirty digits at most.
    Long,
    /// A number of 32 bits.
    Small,
    Type,
    Term,
    Head,
    Sign,
    Variable,
    Replace,
    /// The arguments of a term, with their number; and so for the lists below.
    Args,
    Names,
    Labels,
    Numbers,
    Variables,
    Replaces,
}

/// What follows a number.
#[derive(Clone, Copy)]
pub(crate) enum Behind {
    Nothing,
    /// A type and a term.
    Replacement,
    /// As many of the part as the number says.
    Each(Part),
    /// As many clauses, and then items.
    Clauses,
    /// A term, as many steps, and then items.
    Proof,
}

/// How a part begins, and what follows.
#[derive(Clone, Copy)]
pub(crate) enum Lead {
    /// By a word of the table.
    Words(&'static [(&'static [u8], &'static [Part])]),
    /// By a name.
    Names(&'static [Part]),
    /// By a byte, or by a name that nothing follows.
    MarkOrName(u8, &'static [Part]),
    /// By a number below a limit.
    Numbers(u128, Behind),
}

/// The first word.
const WHOLE: [(&[u8], &[Part]); 1] = [(b"abella-cert", &[Part::Version])];

/// The version.
const VERSION: [(&[u8], &[Part]); 1] = [(b"1", &[Part::Items])];

/// The items, and the last line.
const ITEMS: [(&[u8], &[Part]); 6] = [
    (b"K", &[Part::Name, Part::Items]),
    (b"C", &[Part::Name, Part::Type, Part::Items]),
    (b"B", &[Part::Letter, Part::Names, Part::Clauses]),
    (
        b"S",
        &[Part::Variables, Part::Term, Part::Term, Part::Items],
    ),
    (b"T", &[Part::Name, Part::Proof]),
    (b"end", &[]),
];

/// A clause of a block.
const CLAUSE: [(&[u8], &[Part]); 1] = [(b"D", &[Part::Variables, Part::Term, Part::Term])];

/// A flag.
const FLAGS: [(&[u8], &[Part]); 2] = [(b"0", &[]), (b"1", &[])];

/// Whether a block is inductive.
const LETTERS: [(&[u8], &[Part]); 2] = [(b"i", &[]), (b"c", &[])];

/// A term.
const TERMS: [(&[u8], &[Part]); 2] = [
    (b"\\", &[Part::Type, Part::Name, Part::Term]),
    (b"@", &[Part::Head, Part::Args]),
];

/// The head of a term.
const HEADS: [(&[u8], &[Part]); 5] = [
    (b"c", &[Part::Name]),
    (b"l", &[Part::Sign]),
    (b"n", &[Part::Long, Part::Type]),
    (b"v", &[Part::Name]),
    (b"i", &[Part::Place]),
];

/// The logical constants.
const SIGNS: [(&[u8], &[Part]); 18] = [
    (b"true", &[]),
    (b"false", &[]),
    (b"and", &[]),
    (b"or", &[]),
    (b"arrow", &[]),
    (b"equal", &[Part::Type]),
    (b"forall", &[Part::Type]),
    (b"exists", &[Part::Type]),
    (b"nabla", &[Part::Type]),
    (b"judge", &[]),
    (b"focus", &[]),
    (b"star", &[Part::Long]),
    (b"at", &[Part::Long]),
    (b"plus", &[Part::Long]),
    (b"hash", &[Part::Long]),
    (b"pi", &[Part::Type]),
    (b"imply", &[]),
    (b"with", &[]),
];

/// The steps, by the numbers of their rules.
const STEPS: [(&[u8], &[Part]); 28] = [
    (b"1", &[Part::Name]),
    (b"2", &[]),
    (b"3", &[Part::Name]),
    (b"4", &[]),
    (b"5", &[Part::Name, Part::Label, Part::Label]),
    (b"6", &[Part::Flag]),
    (b"7", &[Part::Name, Part::Label]),
    (b"8", &[Part::Label]),
    (b"9", &[Part::Name, Part::Label]),
    (b"10", &[]),
    (b"11", &[Part::Name, Part::Term, Part::Label]),
    (b"12", &[Part::Term]),
    (b"13", &[Part::Name, Part::Label]),
    (b"14", &[]),
    (b"15", &[Part::Name, Part::Label]),
    (b"16", &[]),
    (b"17", &[Part::Name]),
    (b"18", &[Part::Place]),
    (b"19", &[Part::Name, Part::Label]),
    (b"20", &[Part::Numbers, Part::Labels]),
    (b"21", &[Part::Labels]),
    (b"22", &[Part::Term, Part::Label]),
    (b"23", &[Part::Name, Part::Label]),
    (b"24", &[Part::Name]),
    (b"25", &[Part::Name, Part::Name, Part::Label]),
    (b"26", &[Part::Name, Part::Replaces, Part::Label]),
    (b"27", &[Part::Name, Part::Term, Part::Label]),
    (b"28", &[]),
];

/// Numbers of 64 bits are below this.
const COUNT_LIMIT: u128 = 18_446_744_073_709_551_616;

/// Numbers of thirty digits are below this.
const LONG_LIMIT: u128 = 1_000_000_000_000_000_000_000_000_000_000;

/// Numbers of 32 bits are below this.
const SMALL_LIMIT: u128 = 4_294_967_296;

/// As many of the part as a number says.
fn count_lead(part: Part) -> Lead
    ensures { lead_meant result ≡ counted_lead part }
{
    Lead::Numbers(COUNT_LIMIT, Behind::Each(part))
}

/// How a part begins.
pub(crate) fn lead_of(part: Part) -> Lead
    ensures { lead_meant result ≡ lead_of_part part }
{
    match part {
        Part::Whole => Lead::Words(&WHOLE),
        Part::Version => Lead::Words(&VERSION),
        Part::Items => Lead::Words(&ITEMS),
        Part::Clauses => Lead::Numbers(COUNT_LIMIT, Behind::Clauses),
        Part::Proof => Lead::Numbers(COUNT_LIMIT, Behind::Proof),
        Part::Step => Lead::Words(&STEPS),
        Part::Clause => Lead::Words(&CLAUSE),
        Part::Name => Lead::Names(&[]),
        Part::Label => Lead::MarkOrName(b'-', &[]),
        Part::Flag => Lead::Words(&FLAGS),
        Part::Letter => Lead::Words(&LETTERS),
        Part::Place => Lead::Numbers(COUNT_LIMIT, Behind::Nothing),
        Part::Long => Lead::Numbers(LONG_LIMIT, Behind::Nothing),
        Part::Small => Lead::Numbers(SMALL_LIMIT, Behind::Nothing),
        Part::Type => Lead::MarkOrName(b'>', &[Part::Type, Part::Type]),
        Part::Term => Lead::Words(&TERMS),
        Part::Head => Lead::Words(&HEADS),
        Part::Sign => Lead::Words(&SIGNS),
        Part::Variable => Lead::Names(&[Part::Type]),
        Part::Replace => Lead::Numbers(LONG_LIMIT, Behind::Replacement),
        Part::Args => count_lead(Part::Term),
        Part::Names => count_lead(Part::Name),
        Part::Labels => count_lead(Part::Label),
        Part::Numbers => count_lead(Part::Small),
        Part::Variables => count_lead(Part::Variable),
        Part::Replaces => count_lead(Part::Replace),
    }
}

/// Whether a part begins a line.
pub(crate) fn starts_line(part: Part) -> bool
    ensures { result ≡ starts_line_of part }
{
    matches!(part, Part::Items | Part::Step | Part::Clause)
}
