//! The tokens of an item of a specification file: a comma between the goals of a clause says in parentheses what `&` says.
ghost use Rattle.std.specs.Prelude.{◌≡◌, ◌≤◌, ◌∷◌, ℕ, List, length, take, IfOk, map};
ghost use Rattle.ab_grammar.specs.Token as Grammatical;
ghost use Rattle.ab_grammar.specs.FileTokens.{opened, clause_tokens, item_tokens, sentence};
ghost use Rattle.ab_expressions.specs.Tokens.{StandIn, tokens_from};
ghost use Rattle.ab_expressions.specs.Kinds.{meaning};
ghost use Rattle.ab_expressions.specs.Reader.{seen, place_of};
ghost use Rattle.ab_syntax.specs.GoalCommas.{brackets_of, seen_behind};

use ab_expressions::{Kind, Seen, see, see_all};
use ab_grammar::FileKind;
use ab_lex::Token;
use std::alloc::{AllocError, Global};

/// An open bracket, or what is outside all.
#[derive(Clone, Copy, Drop)]
pub(crate) struct OpenBracket {
    pub(crate) parenthesis: bool,
    /// Whether the names of binders are being read in it.
    pub(crate) naming: bool,
}

/// How far the tokens of a clause were seen.
#[derive(Drop)]
pub(crate) struct ClausePart {
    /// Whether they are those of goals by now.
    pub(crate) goals: bool,
    /// The innermost open bracket.
    pub(crate) inner: OpenBracket,
    /// Those around it, the innermost last.
    pub(crate) outer: Vec<OpenBracket>,
}

const OUTSIDE: OpenBracket = OpenBracket {
    parenthesis: false,
    naming: false,
};

/// Goes on to the brackets that are open behind a token.
fn open_behind(part: &mut ClausePart, kind: Kind) -> Result<(), AllocError>
    ensures brackets { IfOk result (λ r. (w : List ℕ) (p : ℕ) → brackets_of part.new ≡ opened (brackets_of part.old) (meaning kind w p)) }
    ensures goals { part.new.goals ≡ part.old.goals }
{
    match kind {
        Kind::Forall | Kind::Exists | Kind::Nabla => part.inner.naming = true,
        Kind::Comma | Kind::Colon => part.inner.naming = false,
        Kind::LeftParen | Kind::LeftBrace | Kind::LeftBracket => {
            part.outer.push(part.inner)?;
            part.inner.parenthesis = kind == Kind::LeftParen;
        }
        Kind::RightParen | Kind::RightBrace | Kind::RightBracket => {
            if let Some(bracket) = part.outer.pop() {
                part.inner = bracket;
            }
        }
        _ => (),
    }
    Ok(())
}

/// A token of a clause, as its forms see it behind those before it.
fn see_next<'a>(part: &mut ClausePart, token: Seen<'a>) -> Result<Seen<'a>, AllocError>
    ensures token { IfOk result (λ s. (ks : List Grammatical.Token) → seen_behind part.old (seen token.entry ∷ ks) ≡ seen s ∷ seen_behind part.new ks) }
    ensures place { IfOk result (λ s. s.place ≡ token.entry.place) }
{
    if !part.goals {
        if token.kind == Kind::From {
            part.goals = true;
            part.inner = OUTSIDE;
            part.outer.clear();
        }
        return Ok(token);
    }
    let joins = token.kind == Kind::Comma && part.inner.parenthesis && !part.inner.naming;
    open_behind(part, token.kind)?;
    if joins {
        return Ok(Seen {
            kind: Kind::Both,
            written: token.written,
            place: token.place,
        });
    }
    Ok(token)
}

/// All tokens of an item of a module, as its forms see them. Places are counted from the first byte.
fn see_clause<'a>(
    alloc: Global,
    bytes: &'a [u8],
    tokens: &[Token],
) -> Result<Vec<Seen<'a>>, AllocError>
    requires { StandIn bytes.now 0 tokens.now }
    ensures tokens { IfOk result (λ all. map seen all.items ≡ clause_tokens (tokens_from bytes.now 0 tokens.now)) }
    ensures places { IfOk result (λ all. map (λ s. s.place) all.items ≡ map (place_of 0) tokens.now) }
{
    let mut all = Vec::new(alloc);
    let mut part = ClausePart {
        goals: false,
        inner: OUTSIDE,
        outer: Vec::new(alloc),
    };
    for token in tokens {
        all.push(see_next(&mut part, see(bytes, 0, *token))?)?;
    }
    Ok(all)
}

/// All tokens of an item, as its forms see them.
pub(crate) fn see_item<'a>(
    alloc: Global,
    bytes: &'a [u8],
    tokens: &[Token],
    kind: FileKind,
) -> Result<Vec<Seen<'a>>, AllocError>
    requires { StandIn bytes.now 0 tokens.now }
    ensures tokens { IfOk result (λ all. map seen all.items ≡ item_tokens kind (tokens_from bytes.now 0 tokens.now)) }
    ensures places { IfOk result (λ all. map (λ s. s.place) all.items ≡ map (place_of 0) tokens.now) }
{
    match kind {
        FileKind::Signature => see_all(alloc, bytes, tokens, 0),
        FileKind::Module => see_clause(alloc, bytes, tokens),
    }
}

/// How many tokens the first sentence has: up to the first full stop and with it, or all.
pub fn sentence_len(bytes: &[u8], tokens: &[Token]) -> usize
    requires { StandIn bytes.now 0 tokens.now }
    ensures within { result ≤ length tokens.now }
    ensures sentence { tokens_from bytes.now 0 (take result tokens.now) ≡ sentence (tokens_from bytes.now 0 tokens.now) }
{
    let mut len = 0;
    while len < tokens.len() {
        let next = see(bytes, 0, tokens[len]);
        len += 1;
        if next.kind == Kind::Stop {
            return len;
        }
    }
    len
}
