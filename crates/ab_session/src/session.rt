//! A session: what the commands so far have led to.
//!
//! Every proof goes through the kernel, which alone makes derivations, and each theorem's proof stays as long as it does.
ghost use Rattle.std.specs.Prelude.{◌≡◌, ◌≢◌, ◌↔◌, ◌<◌, ◌≤◌, ℕ, ◌+◌, List, [], true, false, None, length, map, slice_get, is_some, IfOk, IfSome, IsSome, IsErr, IsTrue, IsFalse, OnOk, OnErr};
ghost use Rattle.std.specs.Option.{option_map, option_copied};
ghost use Rattle.ab_grammar.specs.CommandTrees as told;
ghost use Rattle.ab_syntax.specs.ab_expressions.specs.SyntaxTrees as trees;
ghost use Rattle.ab_syntax.specs.Commands.{command_of, proof_command_of, defined_of, clause_of};
ghost use Rattle.ab_formulas.specs.Declarations.{theorems_in};
ghost use Rattle.ab_logic.specs.SequentReadings.{sequent_of, HoldsSequent};
ghost use Rattle.ab_logic.specs.Worlds.{declarations_of, IsWorld};
ghost use Rattle.ab_proofcmd.specs.ab_hypothesis.specs.ab_steps.specs.ab_kernel.specs.Layout.{IsProof};
ghost use Rattle.ab_states.specs.ab_specification.specs.ab_declare.specs.declared.refusal.Refusal.{Refusal as ARefusal};
ghost use Rattle.ab_formulas.specs.NamedGoals.{named};
ghost use Rattle.ab_sigmod.specs.Outcomes.{seen, files_of};
ghost use Rattle.ab_states.specs.State.{empty, with_files, is_open, is_specified, goals_of, goals_in};
ghost use Rattle.ab_states.specs.Replay.{IsReplayed};
ghost use Rattle.ab_states.specs.Reply.{SpeaksOfNoGoal, reply_of};
ghost use Rattle.ab_states.specs.ForwardEffects.{Commands};
ghost use Rattle.ab_states.specs.StateEffects.{AsksFor, HasEffectOver, IsBeforeLast};
ghost use Rattle.ab_states.specs.declared.reply.Reply.TheVariants.{Completed, Admitted, Refused};
ghost use Rattle.ab_session.specs.Contents.{Contents, state_of};
ghost use Rattle.ab_session.specs.Origins.{CameFrom, IsSession, Precedes, IsSame};
ghost use Rattle.ab_session.specs.Lasting.{Lasts, Stays};
ghost use Rattle.ab_session.specs.Sessions.{IsProofOf};
ghost use Rattle.ab_session.specs.SessionAnswers.{IsDerivedLast, IsProvedLast, KeepsOneMore, KeepsFewer, IsEntryAnswer, IsForwardAnswer, IsFileAnswer, IsAnswer, IsReplied, IsBefore};
ghost use Rattle.ab_session.specs.Remains.{NothingIsLeftOver};
ghost use Rattle.ab_session.specs.LatestNames.{IsFreed};

use crate::attempt::Attempt;
use crate::attempt_steps::{Outcome, advance};
use crate::command_history::{Before, Deed, Kept, keep, make_room, reads_files};
use crate::latest_marks::{last_type_of_latest, mark_to_latest};
use crate::past_proofs::reopen;
use crate::refusals::{files_unread, refusal_of_cause};
use ab_command::{Unread, read_command};
use ab_io::Files;
use ab_logic::{Sequent, World};
use ab_proof_marks::remains::drop_unnamed;
use ab_proofcmd::hypothesis::steps::kernel::Proof;
use ab_sigmod::{Spec, read_spec};
use ab_states::Reply;
use ab_states::specification::declare::{
    Moment, Refusal, Statement, declare_constants, declare_definition, declare_kinds, state_formula,
};
use ab_states::specification::declare_specification;
use ab_store::TermId;
use ab_store::name::Name;
use ab_store::types::Steps;
use ab_syntax::{ClauseParse, Command, Defined, Parse, ProofCommand, TypeParse};
use std::alloc::{AllocError, Global};
use std::marker::Model;

/// No command is left to take back.
#[derive(Clone, Copy)]
pub enum BackFault {
    NothingToUndo,
}

/// What the commands so far have led to.
#[derive(Drop)]
pub struct Session {
    alloc: Global,
    world: World,
    /// Those of the theorems, in order.
    proofs: Vec<Proof>,
    attempt: Option<Attempt>,
    all_subgoals: bool,
    kept: Vec<Kept>,
}

impl Model for Session {
    ghost use Rattle.std.specs.Coded.{codes};
    ghost use Rattle.ab_store.specs.ab_types.specs.Codes.{entry_code};
    ghost use Rattle.ab_sigmod.specs.Codes.{read_code};
    ghost use Rattle.ab_session.specs.Contents.{Contents, contents};
    ghost use Rattle.ab_session.specs.Origins.{IsSession};

    ghost Value = { Contents };

    ghost coded = { Prim.hlevel (codes, entry_code, read_code) };

    ghost view = { contents };

    ghost invariant = { λ s. IsSession (contents s) };
}

impl Session {
    /// A session before its first command.
    pub fn new(alloc: Global) -> Result<Session, AllocError>
        ensures { IfOk result (λ s. state_of s ≡ empty) }
    {
        Ok(Session {
            alloc,
            world: World::new(alloc)?,
            proofs: Vec::new(alloc),
            attempt: None,
            all_subgoals: true,
            kept: Vec::new(alloc),
        })
    }

    /// WHAT IS TRUE OF EVERY SESSION: it is sound, its state is the one that replaying its kept commands gives, and each of them
    /// led from one session to the next.
    pub fn stands(&self)
        ensures { IsSession self.now }
    {
        let _ = &self.kept;
    }

    /// How many commands are kept.
    pub fn kept(&self) -> usize
        ensures { result ≡ length (state_of self.now).kept }
    {
        self.kept.len()
    }

    /// How many theorems there are.
    pub fn theorems(&self) -> usize
        ensures { result ≡ length (theorems_in (state_of self.now).declarations) }
    {
        self.world.theorems()
    }

    /// What was declared, and the terms by which all is said.
    pub fn world(&self) -> &World
        ensures same { result.now ≡ self.now.world }
        ensures world { IsWorld result.now }
    {
        &self.world
    }

    /// Whether the goals behind the current one are shown.
    pub fn all_subgoals(&self) -> bool
        ensures { result ≡ (state_of self.now).all_subgoals }
    {
        self.all_subgoals
    }

    /// The open proof, where one is open.
    pub fn open_proof(&self) -> Option<&Proof>
        ensures open { is_some (option_copied result) ≡ is_open (state_of self.now) }
        ensures goals { goals_in self.now.world (option_copied result) ≡ goals_of (state_of self.now) }
        ensures proof { IfSome (option_copied result) (IsProof self.now.world) }
    {
        match &self.attempt {
            None => None,
            Some(attempt) => Some(&attempt.proof),
        }
    }

    /// The current goal: the first of the open proof.
    pub fn goal(&self) -> Option<&Sequent>
        ensures reads { option_map (λ s. named (sequent_of self.now.world s)) (option_copied result) ≡ slice_get (goals_of (state_of self.now)) 0 }
        ensures held { IfSome (option_copied result) (HoldsSequent self.now.world) }
    {
        match &self.attempt {
            None => None,
            Some(attempt) => attempt.proof.current(),
        }
    }

    /// The proof of the theorem of this place, counted from 0 in the order in which they were proved.
    pub fn proof_of(&self, theorem: usize) -> Option<&Proof>
        ensures there { IsSome (option_copied result) ↔ (theorem < length (theorems_in (state_of self.now).declarations)) }
        ensures proof { IfSome (option_copied result) (IsProofOf self.now.world theorem) }
    {
        self.proofs.get(theorem)
    }

    /// Takes one command, its full stop included: the reply, and the next state. A command that is refused leaves the
    /// session as it was, to each node, and so does want of memory, but for terms that were made. Where nothing is taken back, all
    /// that the session holds reads as before, and each theorem has the derivation that it had. A specification reads its files, where none is kept, and no other command
    /// asks for a file. What is kept can be taken back, to each node, cell, type and declaration, and what takes back counts a
    /// step for each entry of the table and each declaration that goes. What a kept command made on its way goes, but for what
    /// the session names.
    pub fn accept<F: Files, L>(
        &mut self,
        files: &mut F,
        command: &[u8],
        steps: &mut Steps<L>,
    ) -> Result<Reply, AllocError>
        ensures effect { IfOk result (λ reply. HasEffectOver
            (seen (F.files files.old) (F.plan files.old) (F.faults files.old) (F.misses files.old) (F.long_files files.old))
            (seen (F.files files.new) (F.plan files.new) (F.faults files.new) (F.misses files.new) (F.long_files files.new))
            (state_of self.old) command.now (reply_of self.new.world reply) (state_of self.new)) }
        ensures reply { IfOk result (SpeaksOfNoGoal self.new.world) }
        ensures completed { (name : List ℕ) → IfOk result (λ reply. reply ≡ Completed name → IsProvedLast (state_of self.new).declarations name) }
        ensures admitted { (name : List ℕ) (names : List (List ℕ)) → IfOk result (λ reply. reply ≡ Admitted name names → IsDerivedLast (state_of self.new).declarations name) }
        ensures refused { (r : ARefusal) → IfOk result (λ reply. reply ≡ Refused r → IsSame self.old self.new) }
        ensures unchanged { IfOk result (λ reply. state_of self.new ≡ state_of self.old → IsSame self.old self.new) }
        ensures kept { IfOk result (λ reply. KeepsOneMore (state_of self.old) command.now (state_of self.new) → CameFrom self.old self.new) }
        ensures least { IfOk result (λ reply. KeepsOneMore (state_of self.old) command.now (state_of self.new) → NothingIsLeftOver self.old self.new) }
        ensures lasts { IfOk result (λ reply. ¬ KeepsFewer (state_of self.old) (state_of self.new) → Lasts self.old self.new) }
        ensures taken_back { IfOk result (λ reply. KeepsFewer (state_of self.old) (state_of self.new) → Precedes self.new self.old) }
        ensures lasted { IfOk result (λ reply. KeepsFewer (state_of self.old) (state_of self.new) → Lasts self.new self.old) }
        ensures steps { IfOk result (λ reply. KeepsFewer (state_of self.old) (state_of self.new) →
            steps.new + length self.new.world.types + length self.new.world.additions ≡ steps.old + length self.old.world.types + length self.old.world.additions) }
        ensures err { OnErr result (state_of self.new ≡ state_of self.old) }
        ensures stays { OnErr result (Stays self.old self.new) }
        ensures unloaded { ((x : List ℕ) → ¬ AsksFor (state_of self.old) command.now x) → files.new ≡ files.old }
    {
        let kept = self.kept();
        let reply = self.answer(files, command, steps)?;
        if self.kept() > kept {
            self.drop_leftovers(steps);
        }
        Ok(reply)
    }

    /// Takes one command. What it made on its way is still there.
    fn answer<F: Files, L>(
        &mut self,
        files: &mut F,
        command: &[u8],
        steps: &mut Steps<L>,
    ) -> Result<Reply, AllocError>
        ensures answer { IfOk result (IsReplied
            (seen (F.files files.old) (F.plan files.old) (F.faults files.old) (F.misses files.old) (F.long_files files.old))
            (seen (F.files files.new) (F.plan files.new) (F.faults files.new) (F.misses files.new) (F.long_files files.new))
            self.old command.now self.new steps.old steps.new) }
        ensures err { OnErr result (Stays self.old self.new) }
        ensures unloaded { ((x : List ℕ) → ¬ AsksFor (state_of self.old) command.now x) → files.new ≡ files.old }
    {
        match read_command(self.alloc, command, self.attempt.is_some()) {
            Ok(Command::Specification(name)) => self.specify(files, command, &name, steps),
            Ok(said) => self.carry_out(command, &said, steps),
            Err(Unread::Refused(cause)) => Ok(Reply::Refused(refusal_of_cause(cause))),
            Err(Unread::Memory(fault)) => Err(fault),
        }
    }

    /// Drops what stands at the ends of the world behind a kept command and isn't named, and counts a step for each type.
    fn drop_leftovers<L>(&mut self, steps: &mut Steps<L>)
        ensures freed { (e : Contents) → CameFrom e self.old → IsFreed e self.old self.new }
        ensures declared { declarations_of self.new.world ≡ declarations_of self.old.world }
        ensures steps { steps.new + length self.new.world.types ≡ steps.old + length self.old.world.types }
    {
        let Some(latest) = self.kept.last() else {
            return;
        };
        let before = latest.before.moment;
        let world = &mut self.world;
        let named = mark_to_latest(
            world,
            before.mark,
            latest,
            self.attempt.as_ref(),
            &self.proofs,
        );
        let named_type = last_type_of_latest(latest, self.attempt.as_ref(), &self.proofs);
        drop_unnamed(
            world,
            &before.mark,
            before.types,
            before.additions,
            named,
            named_type,
            steps,
        );
    }

    /// Takes the last kept command back: the state is the one that replaying the others gives. It takes no memory, and counts a step for each entry of the table of types and each
    /// declaration that goes, and no other.
    pub fn back<L>(&mut self, steps: &mut Steps<L>) -> Result<(), BackFault>
        ensures nothing { IsErr result ↔ ((state_of self.old).kept ≡ []) }
        ensures state { OnOk result (IsBeforeLast (state_of self.old) (state_of self.new)) }
        ensures came { OnOk result (CameFrom self.new self.old) }
        ensures replayed { IsReplayed (state_of self.new) }
        ensures closed { OnErr result (self.new.attempt ≡ None) }
        ensures err { OnErr result (self.new ≡ self.old) }
        ensures lasted { OnOk result (Lasts self.new self.old) }
        ensures counted { steps.old ≤ steps.new }
        ensures steps { steps.new + length self.new.world.types + length self.new.world.additions ≡ steps.old + length self.old.world.types + length self.old.world.additions }
    {
        match self.kept.pop() {
            None => Err(BackFault::NothingToUndo),
            Some(last) => {
                drop(last.spec);
                let before = last.before;
                self.attempt = reopen(
                    last.deed,
                    before.steps,
                    self.attempt.take(),
                    &mut self.proofs,
                    &mut self.world,
                    steps,
                );
                before.moment.cut_back(&mut self.world, steps);
                self.all_subgoals = before.all_subgoals;
                Ok(())
            }
        }
    }

    /// Carries out a command that the bytes say and that reads no file.
    fn carry_out<L>(
        &mut self,
        bytes: &[u8],
        command: &Command,
        steps: &mut Steps<L>,
    ) -> Result<Reply, AllocError>
        requires said { Commands (state_of self.old) bytes.now (command_of command.now) }
        requires unread { (x : List ℕ) → command_of command.now ≢ told.specification x }
        ensures answer { IfOk result (IsAnswer self.old bytes.now self.new steps.old steps.new) }
        ensures err { OnErr result (Stays self.old self.new) }
    {
        match command {
            Command::Kind(names) => {
                let names = names.as_slice();
                self.declare_kinds(bytes, names, steps)
            }
            Command::Typed(names, parse) => {
                let names = names.as_slice();
                self.declare_constants(bytes, names, parse, steps)
            }
            Command::Define(inductive, predicates, clauses) => {
                let predicates = predicates.as_slice();
                let clauses = clauses.as_slice();
                self.declare_definition(bytes, *inductive, predicates, clauses, steps)
            }
            Command::Theorem(name, parse) => self.state_theorem(bytes, name, parse, steps),
            Command::Show(name) => self.show(bytes, name),
            Command::Quit => Ok(Reply::Quit),
            Command::Subgoals(on) => self.set_subgoals(bytes, *on),
            Command::Abort => self.abort(bytes),
            Command::Back => Ok(self.take_last(bytes, steps)),
            Command::Undo => Ok(self.undo(bytes, steps)),
            Command::Reset => Ok(self.reset(bytes, steps)),
            Command::InProof(label, command) => {
                let label = label.as_ref();
                self.prove(bytes, label, command, steps)
            }
            _ => unreachable!(),
        }
    }

    /// How the session is now, so far as it takes to come back here.
    fn before(&self) -> Before
        ensures { IsBefore self.now result }
    {
        let steps = match &self.attempt {
            None => 0,
            Some(attempt) => attempt.proof.steps(),
        };
        Before {
            moment: Moment::of(&self.world),
            steps,
            all_subgoals: self.all_subgoals,
        }
    }

    /// `Kind w, .., w type`
    fn declare_kinds<L>(
        &mut self,
        bytes: &[u8],
        names: &[Name],
        steps: &mut Steps<L>,
    ) -> Result<Reply, AllocError>
        requires { Commands (state_of self.old) bytes.now (told.kinds names.now) }
        ensures answer { IfOk result (IsForwardAnswer self.old bytes.now self.new) }
        ensures err { OnErr result (Stays self.old self.new) }
    {
        let before = self.before();
        let bytes = make_room(self.alloc, &mut self.kept, bytes)?;
        match declare_kinds(self.alloc, &mut self.world, names, steps)? {
            Some(refusal) => Ok(Reply::Refused(refusal)),
            None => {
                keep(&mut self.kept, bytes, before, Deed::Went);
                Ok(Reply::Accepted)
            }
        }
    }

    /// `Type w, .., w ty`
    fn declare_constants<L>(
        &mut self,
        bytes: &[u8],
        names: &[Name],
        parse: &TypeParse,
        steps: &mut Steps<L>,
    ) -> Result<Reply, AllocError>
        requires { Commands (state_of self.old) bytes.now (told.constants names.now (trees.type_of parse.now)) }
        ensures answer { IfOk result (IsForwardAnswer self.old bytes.now self.new) }
        ensures err { OnErr result (Stays self.old self.new) }
    {
        let before = self.before();
        let bytes = make_room(self.alloc, &mut self.kept, bytes)?;
        match declare_constants(self.alloc, &mut self.world, names, parse, steps)? {
            Some(refusal) => Ok(Reply::Refused(refusal)),
            None => {
                keep(&mut self.kept, bytes, before, Deed::Went);
                Ok(Reply::Accepted)
            }
        }
    }

    /// `Define w : ty, .., w : ty by c ; .. ; c`, and `CoDefine` likewise.
    fn declare_definition<L>(
        &mut self,
        bytes: &[u8],
        inductive: bool,
        predicates: &[Defined],
        clauses: &[ClauseParse],
        steps: &mut Steps<L>,
    ) -> Result<Reply, AllocError>
        requires { Commands (state_of self.old) bytes.now (told.define inductive (map defined_of predicates.now) (map clause_of clauses.now)) }
        ensures answer { IfOk result (IsForwardAnswer self.old bytes.now self.new) }
        ensures err { OnErr result (Stays self.old self.new) }
    {
        let before = self.before();
        let bytes = make_room(self.alloc, &mut self.kept, bytes)?;
        match declare_definition(
            self.alloc,
            &mut self.world,
            inductive,
            predicates,
            clauses,
            steps,
        )? {
            Some(refusal) => Ok(Reply::Refused(refusal)),
            None => {
                keep(&mut self.kept, bytes, before, Deed::Went);
                Ok(Reply::Accepted)
            }
        }
    }

    /// Whether a specification is kept.
    fn is_specified(&self) -> bool
        ensures { result ≡ is_specified (state_of self.now) }
    {
        reads_files(&self.kept)
    }

    /// `Specification "w"`: reads the files, and declares what they do.
    fn specify<F: Files, L>(
        &mut self,
        files: &mut F,
        bytes: &[u8],
        name: &Name,
        steps: &mut Steps<L>,
    ) -> Result<Reply, AllocError>
        requires { Commands (state_of self.old) bytes.now (told.specification name.now) }
        ensures answer { IfOk result (IsFileAnswer
            (seen (F.files files.old) (F.plan files.old) (F.faults files.old) (F.misses files.old) (F.long_files files.old))
            (seen (F.files files.new) (F.plan files.new) (F.faults files.new) (F.misses files.new) (F.long_files files.new))
            self.old bytes.now self.new) }
        ensures err { OnErr result (Stays self.old self.new) }
        ensures unloaded { is_specified (state_of self.old) ≡ true → files.new ≡ files.old }
    {
        if self.is_specified() {
            let copy = name.copy(self.alloc)?;
            return Ok(Reply::Refused(Refusal::Clash(copy, None)));
        }
        match read_spec(self.alloc, files, name) {
            Ok(spec) => self.declare_files(bytes, spec, steps),
            Err(fault) => Ok(Reply::Refused(files_unread(fault)?)),
        }
    }

    /// Declares what the files of a specification do.
    fn declare_files<L>(
        &mut self,
        bytes: &[u8],
        spec: Spec,
        steps: &mut Steps<L>,
    ) -> Result<Reply, AllocError>
        requires said { (x : List ℕ) × Commands (state_of self.old) bytes.now (told.specification x) }
        requires first { is_specified (state_of self.old) ≡ false }
        ensures answer { IfOk result (IsEntryAnswer self.old (with_files (files_of spec) bytes.now) self.new) }
        ensures err { OnErr result (Stays self.old self.new) }
    {
        let before = self.before();
        let bytes = make_room(self.alloc, &mut self.kept, bytes)?;
        match declare_specification(self.alloc, &mut self.world, spec.files.as_slice(), steps)? {
            Some(refusal) => Ok(Reply::Refused(refusal)),
            None => {
                self.kept.push_reserved(Kept {
                    bytes,
                    spec: Some(spec),
                    before,
                    deed: Deed::Went,
                });
                Ok(Reply::Accepted)
            }
        }
    }

    /// A theorem that is stated: its proof begins.
    fn state_theorem<L>(
        &mut self,
        bytes: &[u8],
        name: &Name,
        parse: &Parse,
        steps: &mut Steps<L>,
    ) -> Result<Reply, AllocError>
        requires { Commands (state_of self.old) bytes.now (told.theorem name.now (trees.tree_of parse.now)) }
        ensures answer { IfOk result (IsForwardAnswer self.old bytes.now self.new) }
        ensures err { OnErr result (Stays self.old self.new) }
    {
        let before = self.before();
        let bytes = make_room(self.alloc, &mut self.kept, bytes)?;
        let copy = name.copy(self.alloc)?;
        match state_formula(self.alloc, &mut self.world, name, parse, steps)? {
            Statement::Refused(refusal) => Ok(Reply::Refused(refusal)),
            Statement::Formula(formula) => {
                let proof = Proof::start(self.alloc, &self.world, formula, 0)?;
                keep(&mut self.kept, bytes, before, Deed::Began);
                self.attempt = Some(Attempt {
                    name: copy,
                    formula,
                    proof,
                });
                Ok(Reply::Accepted)
            }
        }
    }

    /// `Show w`
    fn show(&self, bytes: &[u8], name: &Name) -> Result<Reply, AllocError>
        requires { Commands (state_of self.now) bytes.now (told.show name.now) }
        ensures answer { IfOk result (IsForwardAnswer self.now bytes.now self.now) }
        ensures err { OnErr result (Stays self.now self.now) }
    {
        let _ = bytes;
        let copy = name.copy(self.alloc)?;
        match self.world.theorem(name) {
            Some(formula) => Ok(Reply::Shown(copy, formula)),
            None => Ok(Reply::Refused(Refusal::Unknown(copy, None))),
        }
    }

    /// `Set subgoals on`, or off.
    fn set_subgoals(&mut self, bytes: &[u8], on: bool) -> Result<Reply, AllocError>
        requires { Commands (state_of self.old) bytes.now (told.subgoals on) }
        ensures answer { IfOk result (IsForwardAnswer self.old bytes.now self.new) }
        ensures err { OnErr result (Stays self.old self.new) }
    {
        let before = self.before();
        let bytes = make_room(self.alloc, &mut self.kept, bytes)?;
        keep(&mut self.kept, bytes, before, Deed::Went);
        self.all_subgoals = on;
        Ok(Reply::Accepted)
    }

    /// `abort`: the open proof ends without a theorem.
    fn abort(&mut self, bytes: &[u8]) -> Result<Reply, AllocError>
        requires { Commands (state_of self.old) bytes.now told.abort }
        ensures answer { IfOk result (IsForwardAnswer self.old bytes.now self.new) }
        ensures err { OnErr result (Stays self.old self.new) }
    {
        let before = self.before();
        let bytes = make_room(self.alloc, &mut self.kept, bytes)?;
        let Some(attempt) = self.attempt.take() else {
            unreachable!()
        };
        keep(&mut self.kept, bytes, before, Deed::GaveUp(attempt));
        Ok(Reply::Accepted)
    }

    /// A proof command, with the label before it.
    fn prove<L>(
        &mut self,
        bytes: &[u8],
        label: Option<&Name>,
        command: &ProofCommand,
        steps: &mut Steps<L>,
    ) -> Result<Reply, AllocError>
        requires { Commands (state_of self.old) bytes.now (told.in_proof (option_copied label) (proof_command_of command.now)) }
        ensures answer { IfOk result (IsForwardAnswer self.old bytes.now self.new) }
        ensures err { OnErr result (Stays self.old self.new) }
    {
        let before = self.before();
        let bytes = make_room(self.alloc, &mut self.kept, bytes)?;
        self.proofs.reserve(1)?;
        let Some(mut attempt) = self.attempt.take() else {
            unreachable!()
        };
        let world = &mut self.world;
        match advance(self.alloc, world, &mut attempt, label, command, steps) {
            Ok(Outcome::Completed(reply)) => {
                let deed = Deed::Completed(attempt.name, attempt.formula);
                keep(&mut self.kept, bytes, before, deed);
                self.proofs.push_reserved(attempt.proof);
                Ok(reply)
            }
            Ok(Outcome::Left) => {
                keep(&mut self.kept, bytes, before, Deed::Went);
                self.attempt = Some(attempt);
                Ok(Reply::Accepted)
            }
            Ok(Outcome::Refused(refusal)) => {
                self.attempt = Some(attempt);
                Ok(Reply::Refused(refusal))
            }
            Err(fault) => {
                self.attempt = Some(attempt);
                Err(fault)
            }
        }
    }

    /// `#back`
    fn take_last<L>(&mut self, bytes: &[u8], steps: &mut Steps<L>) -> Reply
        requires { Commands (state_of self.old) bytes.now told.back }
        ensures { IsAnswer self.old bytes.now self.new steps.old steps.new result }
    {
        let _ = bytes;
        match self.back(steps) {
            Ok(()) => Reply::Accepted,
            Err(BackFault::NothingToUndo) => Reply::Refused(Refusal::NothingToUndo),
        }
    }

    /// Whether the last kept command began the open proof.
    fn has_begun(&self) -> bool
        ensures yes { IsTrue result → (e : Contents) × CameFrom e self.now × (e.attempt ≡ None) }
        ensures no { (e : Contents) → IsFalse result → IsSome self.now.attempt → CameFrom e self.now → IsSome e.attempt }
    {
        match self.kept.last() {
            None => false,
            Some(last) => match last.deed {
                Deed::Began => true,
                Deed::Went => false,
                Deed::Completed(_, _) => false,
                Deed::GaveUp(_) => false,
            },
        }
    }

    /// `undo`: takes the last kept command of the open proof back, but not the one that began it.
    fn undo<L>(&mut self, bytes: &[u8], steps: &mut Steps<L>) -> Reply
        requires { Commands (state_of self.old) bytes.now told.undo }
        ensures { IsAnswer self.old bytes.now self.new steps.old steps.new result }
    {
        let _ = bytes;
        if self.has_begun() {
            return Reply::Refused(Refusal::NothingToUndo);
        }
        match self.back(steps) {
            Ok(()) => Reply::Accepted,
            Err(BackFault::NothingToUndo) => unreachable!(),
        }
    }

    /// `#reset`: takes all kept commands back.
    fn reset<L>(&mut self, bytes: &[u8], steps: &mut Steps<L>) -> Reply
        requires { Commands (state_of self.old) bytes.now told.reset }
        ensures { IsAnswer self.old bytes.now self.new steps.old steps.new result }
    {
        let _ = bytes;
        while self.back(steps).is_ok() {}
        Reply::Accepted
    }
}
