//! What the proofs do not say: that the calls succeed where there is memory.
use ab_cert::{ReadFault, check_text, read_cert, write_text};
use std::alloc::{AllocError, Global};

/// Whether reading the text gives a certificate that is written so.
fn is_read_back(alloc: Global, text: &[u8]) -> Result<bool, AllocError> {
    let mut written = Vec::new(alloc);
    match read_cert(alloc, text) {
        Ok(cert) => write_text(alloc, &cert, &mut written)?,
        Err(_) => return Ok(false),
    }
    Ok(written.as_slice() == text)
}

/// Texts, and where each goes wrong, if it does.
#[test]
fn texts_are_read(rt: HostRuntime) -> Result<(), AllocError> {
    let table: [(&str, Option<usize>); 10] = [
        ("abella-cert 1\nT t 1 @ l true 0\n2\nend\n", None),
        (
            "abella-cert 1\nT t 3 @ l and 2 @ l true 0 @ l true 0\n4\n2\n2\nend\n",
            None,
        ),
        (
            "abella-cert 1\nK i\nC p > i o\nB i 1 p 1\nD 1 X i @ c p 1 @ v X 0 @ l true 0\nend\n",
            None,
        ),
        (
            "abella-cert 1\nT t 4 @ l forall i 1 \\ i x @ l star 7 1 @ n 3 i 1 @ i 0 0\n5 H -  h\nend\n",
            Some(78),
        ),
        // without its last line
        ("abella-cert 1\nT t 1 @ l true 0\n2\n", Some(33)),
        // two spaces
        ("abella-cert 1\nT  t 1 @ l true 0\n2\nend\n", Some(16)),
        // a leading zero
        ("abella-cert 1\nT t 01 @ l true 0\n2\nend\n", Some(19)),
        // a number of 31 digits
        (
            "abella-cert 1\nS 0 @ n 1000000000000000000000000000000 i 0 @ l true 0\nend\n",
            Some(52),
        ),
        ("abella-cert 1\nend\n\n", Some(18)),
        ("", Some(0)),
    ];
    for (text, place) in table {
        match (check_text(rt.alloc(), text.as_bytes()), place) {
            (Ok(()), None) => {
                let back = is_read_back(rt.alloc(), text.as_bytes())?;
                assert!(rt; back, "not read back: {text}");
            }
            (Err(ReadFault::BadCert(at)), Some(place)) => assert_eq!(rt; at, place),
            (_, _) => assert!(rt; false, "another answer for {text}"),
        }
    }
    Ok(())
}

/// Types so deep, and terms so deep, are read, written and dropped.
#[test]
fn deep_texts_are_read(rt: HostRuntime) -> Result<(), AllocError> {
    let alloc = rt.alloc();
    let mut text = String::new(alloc);
    text.push_str("abella-cert 1\nC a")?;
    for _ in 0..100000 {
        text.push_str(" >")?;
    }
    for _ in 0..100001 {
        text.push_str(" i")?;
    }
    text.push_str("\nS 0 ")?;
    for _ in 0..100000 {
        text.push_str("@ c f 1 \\ i x ")?;
    }
    text.push_str("@ c a 0 @ c a 0\nend\n")?;
    let back = is_read_back(alloc, text.as_bytes())?;
    assert!(rt; back, "not read back");
    Ok(())
}
