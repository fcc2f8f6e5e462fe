//! What is still to be read: a stack of parts, each with how many of it there are.
ghost use Rattle.std.specs.Prelude.{◌≡◌, ◌∷◌, ◌++◌, [], OnOk};
ghost use Rattle.ab_cert.specs.Grammar.{copies, end_of};
ghost use Rattle.ab_cert.specs.Leads.{kids_of};
ghost use Rattle.ab_cert.specs.PendingParts.{pending_of, IsNext};

use crate::part::{Behind, Part, starts_line};
use crate::scan::Kids;
use std::alloc::{AllocError, Global};

/// So many of a part, and then what is below.
#[derive(Drop)]
pub(crate) struct Pending {
    part: Part,
    count: u128,
    below: Vec<(Part, u128)>,
}

impl Pending {
    /// One part.
    pub(crate) fn new(alloc: Global, part: Part) -> Pending
        ensures { pending_of result ≡ part ∷ [] }
    {
        Pending {
            part,
            count: 1,
            below: Vec::new(alloc),
        }
    }

    /// Puts so many of a part in front.
    pub(crate) fn push(&mut self, part: Part, count: u128) -> Result<(), AllocError>
        ensures { OnOk result (pending_of self.new ≡ copies count part ++ pending_of self.old) }
    {
        self.below.push((self.part, self.count))?;
        self.part = part;
        self.count = count;
        Ok(())
    }

    /// Puts parts in front.
    pub(crate) fn push_all(&mut self, parts: &[Part]) -> Result<(), AllocError>
        ensures { OnOk result (pending_of self.new ≡ parts.now ++ pending_of self.old) }
    {
        'parts: for i in 0..parts.len() {
            self.push(parts[parts.len() - 1 - i], 1)?;
        }
        Ok(())
    }

    /// Puts what follows a piece in front.
    pub(crate) fn push_kids(&mut self, kids: Kids) -> Result<(), AllocError>
        ensures { OnOk result (pending_of self.new ≡ kids_of kids ++ pending_of self.old) }
    {
        match kids {
            Kids::Fixed(parts) => self.push_all(parts),
            Kids::ByNumber(Behind::Nothing, _) => Ok(()),
            Kids::ByNumber(Behind::Replacement, _) => self.push_all(&[Part::Type, Part::Term]),
            Kids::ByNumber(Behind::Each(part), count) => self.push(part, count),
            Kids::ByNumber(Behind::Clauses, count) => {
                self.push(Part::Items, 1)?;
                self.push(Part::Clause, count)
            }
            Kids::ByNumber(Behind::Proof, count) => {
                self.push(Part::Items, 1)?;
                self.push(Part::Step, count)?;
                self.push(Part::Term, 1)
            }
        }
    }

    /// Goes on to what is below where nothing is left above.
    fn settle(&mut self)
        ensures same { pending_of self.new ≡ pending_of self.old }
        ensures some { self.new.count ≡ 0 → pending_of self.new ≡ [] }
    {
        'below: while self.count == 0 {
            match self.below.pop() {
                Some((part, count)) => {
                    self.part = part;
                    self.count = count;
                }
                None => return,
            }
        }
    }

    /// Takes the first part.
    pub(crate) fn next(&mut self) -> Option<Part>
        ensures { IsNext (pending_of self.old) result (pending_of self.new) }
    {
        self.settle();
        if self.count == 0 {
            return None;
        }
        self.count -= 1;
        Some(self.part)
    }

    /// The byte in front of what is still to be read.
    pub(crate) fn end(&mut self) -> u8
        ensures same { pending_of self.new ≡ pending_of self.old }
        ensures end { result ≡ end_of (pending_of self.old) }
    {
        self.settle();
        if self.count == 0 || starts_line(self.part) {
            b'\n'
        } else {
            b' '
        }
    }
}
