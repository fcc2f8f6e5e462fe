//! Laws of what the files of a specification declare.
ghost use Rattle.std.specs.Prelude.{◌≡◌, List};
ghost use Rattle.ab_formulas.specs.Declarations.{Declarations};
ghost use Rattle.ab_sigmod.specs.FileOrder.{Read};
ghost use Rattle.ab_declare.specs.declared.refusal.Refusal.{Refusal as ARefusal};
ghost use Rattle.ab_specification.specs.FileDeclarations.{SpecDeclares, SpecDeclines};

/// What the files of a specification declare is one list of declarations, or they are refused for one cause, and never both.
pub fn specifications_have_one_answer()
    ensures apart { (D : Declarations) (files : List Read) (more : Declarations) (r : ARefusal) → SpecDeclares D files more → SpecDeclines D files r → ⊥ }
    ensures one_list { (D : Declarations) (files : List Read) (more others : Declarations) → SpecDeclares D files more → SpecDeclares D files others → more ≡ others }
    ensures one_refusal { (D : Declarations) (files : List Read) (r q : ARefusal) → SpecDeclines D files r → SpecDeclines D files q → r ≡ q }
{}
