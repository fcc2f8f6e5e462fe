//! How deep a token of an expression or a type is nested.
ghost use Rattle.std.specs.Prelude.{◌≡◌, ◌≤◌, ℕ, List, IfOk, IfErr};
ghost use Rattle.ab_grammar.specs.Nesting.{nest as nest_by, outside as outside_all, limit};
ghost use Rattle.ab_grammar.specs.Token as Grammatical;
ghost use Rattle.ab_expressions.specs.Kinds.{meaning};
ghost use Rattle.ab_expressions.specs.ReaderSteps.{layers_of, IsMeasured, IsTooDeep};

use crate::kind::Kind;
use crate::stop::Stop;
use std::alloc::{AllocError, Global};

/// The deepest nesting that a token may have.
const LIMIT: usize = 200;

/// An open bracket, or what is outside all.
#[derive(Clone, Copy, Drop)]
pub(crate) struct Layer {
    /// The names of binders and the signs in it so far.
    pub count: usize,
    /// Whether a word in it is a binder's name.
    pub naming: bool,
}

/// The innermost layer, the layers around it, and the depth that they make.
#[derive(Drop)]
pub(crate) struct Layers {
    pub inner: Layer,
    pub outer: Vec<Layer>,
    pub depth: usize,
}

/// Outside all brackets, before the first token.
pub(crate) fn outside(alloc: Global) -> Layers
    ensures outside { layers_of result ≡ outside_all }
    ensures depth { result.depth ≡ 0 }
    ensures measured { IsMeasured result }
{
    Layers {
        inner: Layer {
            count: 0,
            naming: false,
        },
        outer: Vec::new(alloc),
        depth: 0,
    }
}

/// One name or sign more in the innermost layer.
fn count(layers: &mut Layers)
    requires measured { IsMeasured layers.old }
    requires shallow { layers.old.depth ≤ limit }
    ensures layers { layers_of layers.new ≡ nest_by (layers_of layers.old) Grammatical.backslash }
    ensures measured { IsMeasured layers.new }
{
    layers.inner.count += 1;
    layers.depth += 1;
}

/// Goes on to the layers behind a token.
fn nest(layers: &mut Layers, kind: Kind) -> Result<(), AllocError>
    requires measured { IsMeasured layers.old }
    requires shallow { layers.old.depth ≤ limit }
    ensures layers { IfOk result (λ r. (w : List ℕ) (p : ℕ) → layers_of layers.new ≡ nest_by (layers_of layers.old) (meaning kind w p)) }
    ensures measured { IfOk result (λ r. IsMeasured layers.new) }
{
    match kind {
        Kind::Word => {
            if layers.inner.naming {
                count(layers);
            }
        }
        Kind::Arrow
        | Kind::Or
        | Kind::And
        | Kind::Equal
        | Kind::Imply
        | Kind::Both
        | Kind::Cons
        | Kind::Backslash => count(layers),
        Kind::Forall | Kind::Exists | Kind::Nabla => layers.inner.naming = true,
        Kind::Comma | Kind::Colon => layers.inner.naming = false,
        Kind::LeftParen | Kind::LeftBrace | Kind::LeftBracket => {
            layers.outer.push(layers.inner)?;
            layers.inner.count = 0;
            layers.depth += 1;
        }
        Kind::RightParen | Kind::RightBrace | Kind::RightBracket => {
            if let Some(layer) = layers.outer.pop() {
                layers.depth = layers.depth - layers.inner.count - 1;
                layers.inner = layer;
            }
        }
        _ => (),
    }
    Ok(())
}

/// What was read up to a token and with it, unless the token is nested too deeply.
pub(crate) fn check_nesting<T: Drop>(layers: &mut Layers, kind: Kind, read: T) -> Result<T, Stop>
    requires measured { IsMeasured layers.old }
    requires shallow { layers.old.depth ≤ limit }
    ensures read { IfOk result (λ r. r ≡ read) }
    ensures layers { IfOk result (λ r. (w : List ℕ) (p : ℕ) → layers_of layers.new ≡ nest_by (layers_of layers.old) (meaning kind w p)) }
    ensures measured { IfOk result (λ r. IsMeasured layers.new) }
    ensures shallow { IfOk result (λ r. layers.new.depth ≤ limit) }
    ensures deep { IfErr result (λ stop. (w : List ℕ) (p : ℕ) → IsTooDeep (nest_by (layers_of layers.old) (meaning kind w p)) stop) }
{
    nest(layers, kind)?;
    if layers.depth > LIMIT {
        return Err(Stop::TooNested);
    }
    Ok(read)
}
