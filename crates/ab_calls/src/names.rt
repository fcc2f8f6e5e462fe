//! A fault's text is its variant's name.
use ab_lex::LexFault;
use ab_search::SearchFault;
use ab_steps::ProofCommandFault;
use ab_steps::kernel::KernelFault;
use ab_syntax::ParseFault;
use std::alloc::AllocError;
use std::test::Fail;

#[test]
fn faults_of_texts_are_named(rt: HostRuntime) -> Result<(), Fail> {
    for (fault, name) in [
        (LexFault::BadByte(3), "BadByte"),
        (LexFault::OpenString(3), "OpenString"),
        (LexFault::OpenComment(3), "OpenComment"),
        (LexFault::Memory(AllocError), "Memory"),
    ] {
        assert!(rt; format!(in rt.alloc(); "{fault}")?.as_str() == name);
    }
    for (fault, name) in [
        (ParseFault::Syntax(3), "Syntax"),
        (ParseFault::TooNested(3), "TooNested"),
        (ParseFault::Memory(AllocError), "Memory"),
    ] {
        assert!(rt; format!(in rt.alloc(); "{fault}")?.as_str() == name);
    }
    Ok(())
}

#[test]
fn faults_of_proofs_are_named(rt: HostRuntime) -> Result<(), Fail> {
    let alloc = rt.alloc();
    let names = format!(in alloc;
        "{} {} {} {} {} {} {}",
        KernelFault::RuleFails(1),
        KernelFault::NotPattern(1),
        KernelFault::Memory(AllocError),
        SearchFault::NotFound,
        SearchFault::NotPattern(1),
        SearchFault::Memory(AllocError),
        ProofCommandFault::WrongShape
    )?;
    assert!(rt;
        names.as_str() == "RuleFails NotPattern Memory NotFound NotPattern Memory WrongShape"
    );
    Ok(())
}
