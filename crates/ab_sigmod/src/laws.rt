//! Laws of how the files of a specification are read.
ghost use Rattle.std.specs.Prelude.{◌≡◌, ◌++◌, ℕ, List};
ghost use Rattle.ab_sigmod.specs.FileLoads.{Load};
ghost use Rattle.ab_sigmod.specs.FileOrder.{Read, Fault, IsSpecification, IsRefused};

/// A SPECIFICATION IS READ IN ONE WAY: where loads begin alike, its files are read by one front of them and declare one list of
/// items, or they can't be read, for one fault, and never both.
pub fn specifications_are_read_in_one_way()
    ensures apart { (x : List ℕ) (loads others rest more : List Load) (files : List Read) (fault : Fault) → loads ++ rest ≡ others ++ more →
        IsSpecification x loads files → IsRefused x others fault → ⊥ }
    ensures one_front { (x : List ℕ) (loads others rest more : List Load) (files declared : List Read) → loads ++ rest ≡ others ++ more →
        IsSpecification x loads files → IsSpecification x others declared → loads ≡ others }
    ensures one_list { (x : List ℕ) (loads others rest more : List Load) (files declared : List Read) → loads ++ rest ≡ others ++ more →
        IsSpecification x loads files → IsSpecification x others declared → files ≡ declared }
    ensures one_refused_front { (x : List ℕ) (loads others rest more : List Load) (f g : Fault) → loads ++ rest ≡ others ++ more →
        IsRefused x loads f → IsRefused x others g → loads ≡ others }
    ensures one_fault { (x : List ℕ) (loads others rest more : List Load) (f g : Fault) → loads ++ rest ≡ others ++ more →
        IsRefused x loads f → IsRefused x others g → f ≡ g }
{}
