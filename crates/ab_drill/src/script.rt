//! The script of the drill.
ghost use Rattle.std.specs.Prelude.{◌≡◌, ◌++◌, IfOk, OnOk};
ghost use Rattle.ab_drill.specs.Drill.{declarations, statement, theorem, script};

use itoa::Buffer;
use std::alloc::{AllocError, Global};

/// What is declared before the theorems.
fn write_declarations(out: &mut Vec<u8>) -> Result<(), AllocError>
    ensures { OnOk result (out.new.items ≡ out.old.items ++ declarations) }
{
    out.extend_from_slice(
        b"Kind nat, lst type. Type z nat. Type s nat -> nat. Type nl lst. Type cn nat -> lst -> lst.\n",
    )?;
    out.extend_from_slice(
        b"Define nat : nat -> prop by nat z ; nat (s N) := nat N.\nDefine plus : nat -> nat -> nat -> prop by plus z N N ; plus (s M) N (s K) := plus M N K.\n",
    )?;
    out.extend_from_slice(
        b"Define list : lst -> prop by list nl ; list (cn X L) := list L.\nDefine app : lst -> lst -> lst -> prop by app nl L L ; app (cn X L) K (cn X M) := app L K M.\n",
    )
}

/// What the theorem of this number states.
fn write_statement(number: u64, out: &mut Vec<u8>) -> Result<(), AllocError>
    ensures { OnOk result (out.new.items ≡ out.old.items ++ statement number) }
{
    if number % 2 == 1 {
        out.extend_from_slice(b" : forall N, nat N -> plus N z N.")
    } else {
        out.extend_from_slice(b" : forall L, list L -> app L nl L.")
    }
}

/// The theorem of this number with its proof, whose last step is taken, taken back, and taken again.
fn write_theorem(number: u64, out: &mut Vec<u8>) -> Result<(), AllocError>
    ensures { OnOk result (out.new.items ≡ out.old.items ++ theorem number) }
{
    out.extend_from_slice(b"Theorem t")?;
    let mut buffer = Buffer::new();
    out.extend_from_slice(buffer.format(number).as_bytes())?;
    write_statement(number, out)?;
    out.extend_from_slice(
        b" induction on 1. intros. case H1. search. apply IH to H2. search. #back. search.\n",
    )
}

/// The script of so many theorems.
pub fn drill_script(alloc: Global, count: u64) -> Result<Vec<u8>, AllocError>
    ensures { IfOk result (λ text. text.items ≡ script count) }
{
    let mut text = Vec::new(alloc);
    write_declarations(&mut text)?;
    for number in 0..count {
        write_theorem(number + 1, &mut text)?;
    }
    Ok(text)
}
