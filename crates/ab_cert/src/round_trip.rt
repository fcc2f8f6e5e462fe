//! That what is written is read back, as a law of the definitions: the contract of a function that does nothing.
ghost use Rattle.std.specs.Prelude.{◌≡◌, List};
ghost use Rattle.ab_cert.specs.Plain.{Item};
ghost use Rattle.ab_cert.specs.Tables.{IsCert};
ghost use Rattle.ab_cert.specs.Texts.{IsText, text_of};

/// The text of a certificate that may be written is a text of that certificate, and of no other.
pub fn text_is_read_back()
    ensures same { (items : List Item) → IsCert items → IsText (text_of items) items }
    ensures only { (items others : List Item) → IsCert items → IsText (text_of items) others → others ≡ items }
{}
