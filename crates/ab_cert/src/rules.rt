//! Reading the steps of a derivation.
ghost use Rattle.std.specs.Prelude.{◌≤◌, ◌<◌};
ghost use Rattle.ab_cert.specs.Forms.{left_of, ReadsFields, step_form};

use crate::clause::CertReplace;
use crate::members::Members;
use crate::readers::Spelled;
use crate::step::{CertStep, Label};
use crate::term_tree::CertTree;
use crate::text::{Text, next_number};
use ab_name::Name;
use std::alloc::{AllocError, Global};

/// Reads the fields of a step of the first nine rules.
fn read_early(alloc: Global, text: &mut Text<'_>, rule: u128) -> Result<CertStep, AllocError>
    requires { rule < 10 }
    ensures { ReadsFields rule (left_of text.old) result (left_of text.new) }
{
    match rule {
        1 => Ok(CertStep::Initial(Name::read(alloc, text)?)),
        2 => Ok(CertStep::TrueRight),
        3 => Ok(CertStep::FalseLeft(Name::read(alloc, text)?)),
        4 => Ok(CertStep::AndRight),
        5 => {
            let (name, (first, second)) = <(Name, (Label, Label))>::read(alloc, text)?;
            Ok(CertStep::AndLeft(name, first, second))
        }
        6 => Ok(CertStep::OrRight(bool::read(alloc, text)?)),
        7 => {
            let (name, label) = <(Name, Label)>::read(alloc, text)?;
            Ok(CertStep::OrLeft(name, label))
        }
        8 => Ok(CertStep::ArrowRight(Label::read(alloc, text)?)),
        _ => {
            let (name, label) = <(Name, Label)>::read(alloc, text)?;
            Ok(CertStep::ArrowLeft(name, label))
        }
    }
}

/// Reads the fields of a step of the tenth rule to the nineteenth.
fn read_middle(alloc: Global, text: &mut Text<'_>, rule: u128) -> Result<CertStep, AllocError>
    requires above { 10 ≤ rule }
    requires below { rule < 20 }
    ensures { ReadsFields rule (left_of text.old) result (left_of text.new) }
{
    match rule {
        10 => Ok(CertStep::ForallRight),
        11 => {
            let (name, (term, label)) = <(Name, (CertTree, Label))>::read(alloc, text)?;
            Ok(CertStep::ForallLeft(name, term, label))
        }
        12 => Ok(CertStep::ExistsRight(CertTree::read(alloc, text)?)),
        13 => {
            let (name, label) = <(Name, Label)>::read(alloc, text)?;
            Ok(CertStep::ExistsLeft(name, label))
        }
        14 => Ok(CertStep::NablaRight),
        15 => {
            let (name, label) = <(Name, Label)>::read(alloc, text)?;
            Ok(CertStep::NablaLeft(name, label))
        }
        16 => Ok(CertStep::EqualRight),
        17 => Ok(CertStep::EqualLeft(Name::read(alloc, text)?)),
        18 => Ok(CertStep::DefRight(usize::read(alloc, text)?)),
        _ => {
            let (name, label) = <(Name, Label)>::read(alloc, text)?;
            Ok(CertStep::DefLeft(name, label))
        }
    }
}

/// Reads the fields of a step of the twentieth rule or a later one.
fn read_late(alloc: Global, text: &mut Text<'_>, rule: u128) -> Result<CertStep, AllocError>
    requires { 20 ≤ rule }
    ensures { ReadsFields rule (left_of text.old) result (left_of text.new) }
{
    match rule {
        20 => {
            let (places, labels) = <(Members<u32>, Members<Label>)>::read(alloc, text)?;
            Ok(CertStep::Induction(places, labels))
        }
        21 => Ok(CertStep::Coinduction(Members::<Label>::read(alloc, text)?)),
        22 => {
            let (term, label) = <(CertTree, Label)>::read(alloc, text)?;
            Ok(CertStep::CutFormula(term, label))
        }
        23 => {
            let (name, label) = <(Name, Label)>::read(alloc, text)?;
            Ok(CertStep::UseTheorem(name, label))
        }
        24 => Ok(CertStep::Weaken(Name::read(alloc, text)?)),
        25 => {
            let (name, (other, label)) = <(Name, (Name, Label))>::read(alloc, text)?;
            Ok(CertStep::SpecCut(name, other, label))
        }
        26 => {
            let (name, (replaces, label)) = <(Name, (Members<CertReplace>, Label))>::read(
                alloc, text,
            )?;
            Ok(CertStep::SpecInst(name, replaces, label))
        }
        27 => {
            let (name, (term, label)) = <(Name, (CertTree, Label))>::read(alloc, text)?;
            Ok(CertStep::SpecMonotone(name, term, label))
        }
        _ => Ok(CertStep::Skip),
    }
}

impl Spelled for CertStep {
    ghost form = { step_form };

    fn read(alloc: Global, text: &mut Text<'_>) -> Result<CertStep, AllocError> {
        let rule = next_number(text);
        if rule < 10 {
            read_early(alloc, text, rule)
        } else if rule < 20 {
            read_middle(alloc, text, rule)
        } else {
            read_late(alloc, text, rule)
        }
    }
}
