//! The marks of what may be analysed and unfolded.
ghost use Rattle.std.specs.Prelude.{◌≡◌, Some};
ghost use Rattle.ab_logic.specs.Forms as forms;
ghost use Rattle.ab_logic.specs.declared.world.World.{World as AWorld};
ghost use Rattle.ab_theory.specs.Subjects as plain;
ghost use Rattle.ab_judgements.specs.SubjectReadings.{subject_read};

use crate::subjects::Subject;
use ab_logic::Sign;

/// The mark of the subject.
pub fn sign_of(subject: &Subject) -> Sign
    ensures { (w : AWorld) (x : plain.Subject) → subject_read w subject.now ≡ Some x → forms.sign_of result ≡ plain.sign_of x }
{
    match subject {
        Subject::Atom(atom) => atom.sign,
        Subject::Judgement(judgement) => judgement.sign,
    }
}
