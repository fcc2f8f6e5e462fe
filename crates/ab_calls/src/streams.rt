//! What the proofs do not say: that the calls succeed where there is memory.
use ab_io::{
    Failed, Files, LoadFault, MAX_FILE_BYTES, MemFiles, MemSink, MemSource, Sink, Source,
    WriteFault, write_all,
};
use std::alloc::{AllocError, Global};

/// What each read of a source answers, into a slice of three bytes.
#[test]
fn reads_in_pieces(rt: HostRuntime) -> Result<(), AllocError> {
    let alloc = rt.alloc();
    let table: [(usize, &[u64], &[Option<&str>]); 4] = [
        (
            1,
            &[],
            &[Some("a"), Some("b"), Some("c"), Some("d"), Some("")],
        ),
        (3, &[], &[Some("abc"), Some("d"), Some(""), Some("")]),
        (5, &[2], &[Some("abc"), None, Some("d"), Some("")]),
        (2, &[1, 3], &[None, Some("ab"), None, Some("cd"), Some("")]),
    ];
    for (piece, fails, answers) in table {
        let mut source = MemSource::new(
            Vec::from_slice(alloc, b"abcd")?,
            piece,
            Vec::from_slice(alloc, fails)?,
        );
        for answer in answers {
            let mut into = [b'-'; 3];
            match (source.read(&mut into), answer) {
                (Ok(count), Some(text)) => assert_eq!(rt; &into[..count], text.as_bytes()),
                (Err(Failed), None) => {}
                (_, _) => assert!(rt; false, "another answer at piece {piece}"),
            }
        }
    }
    Ok(())
}

/// A sink that takes nothing, and counts each piece that is not empty as a fault.
#[derive(Drop)]
struct Stuck {
    faults: u64,
}

impl Sink for Stuck {
    ghost use Rattle.std.specs.Prelude.{None};

    ghost written = { λ _. None };

    ghost faults = { λ s. s.faults };

    fn write(&mut self, piece: &[u8]) -> Result<usize, WriteFault> {
        if !piece.is_empty() {
            self.faults = self.faults.saturating_add(1);
        }
        Ok(0)
    }
}

#[test]
fn writes_until_a_fault(rt: HostRuntime) -> Result<(), AllocError> {
    let alloc = rt.alloc();
    let table: [(&[u64], &str); 3] = [(&[], "abcde"), (&[2], "abde"), (&[1, 4], "cd")];
    for (fails, written) in table {
        let mut sink = MemSink::new(alloc, Vec::from_slice(alloc, fails)?);
        for piece in ["ab", "c", "d", "e"] {
            let _ = write_all(&mut sink, piece.as_bytes());
        }
        assert_eq!(rt; sink.bytes(), written.as_bytes());
    }
    let mut stuck = Stuck { faults: 0 };
    assert_eq!(rt; write_all(&mut stuck, b"ab"), Err(WriteFault::Failed));
    assert_eq!(rt; write_all(&mut stuck, b""), Ok(()));
    Ok(())
}

/// Loads in turn, the third of which is planned to fail.
#[test]
fn loads_by_name(rt: HostRuntime) -> Result<(), AllocError> {
    let alloc = rt.alloc();
    let mut files = MemFiles::new(alloc, Vec::from_slice(alloc, &[3])?);
    files.put("b.mod", Vec::from_slice(alloc, b"old")?)?;
    files.put("b.mod", Vec::from_slice(alloc, b"new")?)?;
    files.put("a.sig", Vec::new(alloc))?;
    files.put("long", vec![in alloc; b' '; MAX_FILE_BYTES + 1]?)?;
    let mut into = Vec::new(alloc);
    let table = [
        ("b.mod", Ok("new")),
        ("b", Err(LoadFault::Missing)),
        ("b.mod", Err(LoadFault::Failed)),
        ("b.mod", Ok("new")),
        ("long", Err(LoadFault::TooLong)),
        ("a.sig", Ok("")),
    ];
    for (name, answer) in table {
        let loaded = files.load(name, &mut into);
        assert_eq!(rt; loaded, answer.map(|_| ()), "{name}");
        assert_eq!(rt; into.as_slice(), answer.unwrap_or("").as_bytes(), "{name}");
    }
    Ok(())
}
