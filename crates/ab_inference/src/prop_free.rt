//! Types in which `prop` stands nowhere. A type that was found to be one is walked over once.
ghost use Rattle.std.specs.Prelude.{◌≡◌, ◌⊎◌, true, false, IfOk};
ghost use Rattle.ab_term.specs.Types as plain;
ghost use Rattle.ab_store.specs.ab_types.specs.Sound.{IsTable};
ghost use Rattle.ab_store.specs.ab_types.specs.Ids.{HoldsType, type_of};
ghost use Rattle.ab_store.specs.ab_types.specs.declared.ids.TypeId.{TypeId as AType};
ghost use Rattle.ab_meaning.specs.Types.{PropFree};
ghost use Rattle.ab_inference.specs.Freedom.{is_kept, AreFree};

use ab_store::types::{TypeId, TypeTable, TypeView};
use std::alloc::{AllocError, Global};
use std::collections::HashSet;

/// Types that were found to be free of `prop`.
#[derive(Drop)]
pub(crate) struct Free {
    types: HashSet<TypeId>,
}

impl Free {
    /// None is kept yet.
    pub(crate) fn new(alloc: Global) -> Free
        ensures { (t : AType) → is_kept result t ≡ false }
    {
        Free {
            types: HashSet::new(alloc),
        }
    }

    /// Whether the type is kept.
    fn has(&self, ty: TypeId) -> bool
        ensures { result ≡ is_kept self.now ty }
    {
        self.types.contains(&ty)
    }

    /// Keeps the type.
    fn keep(&mut self, ty: TypeId) -> Result<(), AllocError>
        ensures { (t : AType) → (is_kept self.new t ≡ is_kept self.old t) ⊎ (t ≡ ty) }
    {
        self.types.insert(ty)?;
        Ok(())
    }
}

/// Whether `prop` stands nowhere in the type.
pub(crate) fn is_prop_free(
    types: &TypeTable,
    prop: TypeId,
    ty: TypeId,
    free: &mut Free,
) -> Result<bool, AllocError>
    requires table { IsTable types.now }
    requires prop_held { HoldsType types.now prop }
    requires prop { type_of types.now prop ≡ plain.prop }
    requires ty { HoldsType types.now ty }
    requires kept { AreFree types.now free.old }
    ensures free { IfOk result (λ r. r ≡ true → PropFree (type_of types.now ty)) }
    ensures bound { IfOk result (λ r. r ≡ false → PropFree (type_of types.now ty) → ⊥) }
    ensures kept { AreFree types.now free.new }
{
    if free.has(ty) {
        return Ok(true);
    }
    match types.view(ty) {
        TypeView::Base(_) => Ok(ty != prop),
        TypeView::Arrow(from, to) => {
            if !is_prop_free(types, prop, from, free)? {
                return Ok(false);
            }
            if !is_prop_free(types, prop, to, free)? {
                return Ok(false);
            }
            free.keep(ty)?;
            Ok(true)
        }
    }
}
