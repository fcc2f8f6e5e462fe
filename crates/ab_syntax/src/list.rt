//! Lists: rows of tokens that show values, and items with a sign between.
ghost use Rattle.std.specs.Prelude.{◌≡◌, [], ◌∷◌, ◌++◌, map, IfOk};
ghost use Rattle.ab_grammar.specs.Language.{Key};
ghost use Rattle.ab_grammar.specs.CommandForms.{One, Many, OneOrMore, Separated};
ghost use Rattle.ab_grammar.proofs.Following.{Without};
ghost use Rattle.ab_grammar.proofs.Reading.{ReadsOff};
ghost use Rattle.ab_expressions.specs.Items.{list_of};
ghost use Rattle.ab_expressions.specs.Kinds.{key_of};
ghost use Rattle.ab_syntax.specs.Lists.{ListForm};
ghost use Rattle.ab_expressions.specs.Reader.{rest, Found};

use crate::leaf::{Shown, take_if};
use ab_expressions::{Items, Kind, Stop, Text, takes};
use std::alloc::AllocError;

/// Puts an item behind the others.
pub(crate) fn add<T: Drop>(items: &mut Vec<T>, item: T) -> Result<(), AllocError>
    ensures { IfOk result (λ u. items.new.items ≡ items.old.items ++ item ∷ []) }
{
    items.push(item)?;
    Ok(())
}

/// Takes any number of tokens that show values.
pub(crate) fn take_all<S: Shown>(
    text: &Text<'_>,
    here: &mut usize,
    form: S,
) -> Result<Items<S::Value>, AllocError>
    ensures { IfOk result (λ xs. ReadsOff (Many (One (S.leaf form).shows)) (Without (S.leaf form).shows) (rest text.now here.old) (map (S.leaf form).meant (list_of xs)) (rest text.now here.new)) }
{
    let mut values = Vec::new(text.alloc);
    while let Some(value) = take_if(text, here, form)? {
        add(&mut values, value)?;
    }
    Ok(Items::from_vec(values))
}

/// Takes one token or more that show values.
pub(crate) fn take_some<S: Shown>(
    text: &Text<'_>,
    here: &mut usize,
    form: S,
) -> Result<Items<S::Value>, Stop>
    ensures { Found (OneOrMore (One (S.leaf form).shows)) (Without (S.leaf form).shows) (λ xs. map (S.leaf form).meant (list_of xs)) (rest text.now here.old) (rest text.now here.new) result }
{
    let values = take_all(text, here, form)?;
    if values.as_slice().is_empty() {
        return Err(Stop::Syntax);
    }
    Ok(values)
}

/// An item of a list.
pub(crate) trait Item: Sized + Drop {
    ghost list: { ListForm Self };

    /// Reads an item.
    fn item(text: &Text<'_>, here: &mut usize) -> Result<Self, Stop>
        ensures { Found list.form list.ends list.meant (rest text.now here.old) (rest text.now here.new) result };
}

/// Reads one item or more, with the sign between.
pub(crate) fn items<T: Item>(
    text: &Text<'_>,
    here: &mut usize,
    sign: Kind,
) -> Result<Items<T>, Stop>
    requires { sign ≡ T.list.sign }
    ensures { Found (Separated (Key (key_of T.list.sign)) T.list.form) T.list.list_ends (λ xs. map T.list.meant (list_of xs)) (rest text.now here.old) (rest text.now here.new) result }
{
    let mut items = Vec::new(text.alloc);
    loop {
        add(&mut items, T::item(text, here)?)?;
        if !takes(text, here, sign) {
            return Ok(Items::from_vec(items));
        }
    }
}
