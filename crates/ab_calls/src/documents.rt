//! What the proofs do not say: that an edit goes well where there is memory. A few edits are made over a replay in memory,
//! with the place and the moves behind each.
ghost use Rattle.std.specs.Prelude.{◌≡◌, ◌<◌, length, map, nat_le, get_or};

use ab_edit::{Document, EditFault};
use ab_io::Replay;
use std::alloc::{AllocError, Global};

/// A replay in memory that keeps what a table says, and counts. The row numbered `n` is the most bytes of a command that is
/// kept behind `n` others. Behind as many commands as there are rows nothing is told, and none is kept.
#[derive(Drop)]
struct TableReplay {
    alloc: Global,
    rows: Vec<usize>,
    kept: Vec<Vec<u8>>,
    moves: u64,
    /// At this move it finds no memory.
    wants_at: u64,
}

impl Replay for TableReplay {
    ghost kept = { λ r. map (λ command. command.items) r.kept.items };

    ghost test = { λ r kept command answer. (length kept < length r.rows.items)
        × (answer ≡ nat_le (length command) (get_or r.rows.items (length kept) 0)) };

    ghost moves = { λ r. r.moves };

    fn accept(&mut self, command: &[u8]) -> Result<bool, AllocError> {
        self.moves = self.moves.saturating_add(1);
        if self.moves == self.wants_at {
            return Err(AllocError);
        }
        let place = self.kept.len();
        if place >= self.rows.len() || command.len() > self.rows[place] {
            return Ok(false);
        }
        self.kept.push(Vec::from_slice(self.alloc, command)?)?;
        Ok(true)
    }

    fn back(&mut self) -> bool {
        self.moves = self.moves.saturating_add(1);
        self.kept.pop().is_some()
    }
}

/// The answer, the place, and how many moves there were so far, behind each of some edits. At move 17 no memory is found.
#[test]
fn goes_on_from_the_edit(rt: HostRuntime) -> Result<(), AllocError> {
    let alloc = rt.alloc();
    let mut document = Document::new(
        alloc,
        TableReplay {
            alloc,
            rows: Vec::from_slice(alloc, &[4, 9, 12, 9])?,
            kept: Vec::new(alloc),
            moves: 0,
            wants_at: 17,
        },
    );
    let table = [
        // the third command is too long to be kept
        (0, 0, "one. two. no command of three. four.", "ok", 9, 3),
        // an edit behind all commands: the one that isn't kept is looked at again, and no other
        (36, 36, " ", "ok", 9, 4),
        // it becomes short: it and the one behind it are kept
        (10, 21, "", "ok", 25, 6),
        // an edit in the first command takes all four back, and accepts four
        (0, 1, "O", "ok", 25, 14),
        // an edit in the third takes two back, and finds no memory for it
        (12, 13, "x", "behind", 9, 17),
        // the next edit goes on from there
        (25, 25, "", "ok", 25, 19),
        // behind four commands none is kept
        (26, 26, "five.", "ok", 25, 20),
        // the first command takes the second in, and isn't kept
        (3, 4, ",", "ok", 0, 25),
        // and they are two again
        (3, 4, ".", "ok", 25, 30),
    ];
    for (start, end, bytes, answer, place, moves) in table {
        assert!(rt; start <= end && end <= document.len());
        let edit = match document.replace(start, end, bytes.as_bytes()) {
            Ok(()) => "ok",
            Err(EditFault::Before(_)) => "before",
            Err(EditFault::Behind(_)) => "behind",
        };
        assert_eq!(rt; edit, answer, "{bytes}");
        assert_eq!(rt; document.place(), place, "{bytes}");
        assert_eq!(rt; document.replay().moves, moves, "{bytes}");
    }
    Ok(())
}
