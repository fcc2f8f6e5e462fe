//! The files of a specification are read, or they can't be.
ghost use Rattle.std.specs.Prelude.{ℕ, List};
ghost use Rattle.ab_sigmod.specs.FileNames.{File};
ghost use Rattle.ab_sigmod.specs.FileTexts.{TextFault, Says, IsFaulty};
ghost use Rattle.ab_sigmod.specs.FileLoads.{FilesSeen};
ghost use Rattle.ab_sigmod.specs.FileOrder.{Read};
ghost use Rattle.ab_grammar.specs.FileTrees.{Item};
ghost use Rattle.ab_formulas.specs.Declarations.{Declarations};
ghost use Rattle.ab_specification.specs.FileDeclarations.{SpecDeclares, SpecDeclines};
ghost use Rattle.ab_declare.specs.declared.refusal.Refusal.{Refusal};
ghost use Rattle.ab_existence.specs.Certainty.{IsCertain, OneHolds};
ghost use Rattle.ab_effect_answers.specs.SomeEffects.{AreReadOrNot};

/// EACH TEXT OF A SPECIFICATION FILE SAYS ITEMS, or it is faulty behind some.
pub fn each_file_text_says_items_or_is_faulty()
    ensures { (bytes : List ℕ) (f : File) → OneHolds ((is : List Item) × Says bytes f is) ((is : List Item) × (t : TextFault) × IsFaulty bytes f is t) }
{}

/// EACH LIST OF FILES HAS AN ANSWER: whatever is told of the files, those of a specification are read, or there is a fault, by some
/// loads.
pub fn each_specification_is_read_or_not()
    ensures { (before : FilesSeen) (x : List ℕ) → IsCertain (AreReadOrNot before x) }
{}

/// WHAT THE FILES SAY is declared, or an item of them is the first that is refused.
pub fn files_declare_or_are_refused()
    ensures { (D : Declarations) (files : List Read) → OneHolds ((more : Declarations) × SpecDeclares D files more) ((r : Refusal) × SpecDeclines D files r) }
{}
