//! Files of scripts between marks, and the line of each fault.

use script_lines::ScriptRule;
use script_pieces::*;
use std::alloc::Global;
use ucd_facts::file_limit;

/// The pieces of a file of a test, which is never above the limit.
fn pieces_in(bytes: &[u8]) -> Option<Pieces<'_>> {
    if bytes.len() > file_limit() {
        return None;
    }
    Some(pieces_of(bytes))
}

/// A piece as a test writes it: its mark with the number of its line, the number of its first line, and its bytes.
type Cut = (Option<(u32, &'static [u8])>, u32, &'static [u8]);

/// Whether a piece is the one that is expected.
fn is_piece(piece: Piece<'_>, expected: &Cut) -> bool {
    let same_mark = match (piece.mark, expected.0) {
        (Some(mark), Some((line, content))) => mark.line == line && mark.content == content,
        (None, None) => true,
        _ => false,
    };
    same_mark && piece.first_line == expected.1 && piece.body == expected.2
}

/// Whether a file has just these pieces.
fn is_cut(bytes: &[u8], expected: &[Cut]) -> bool {
    let Some(mut pieces) = pieces_in(bytes) else {
        return false;
    };
    for cut in expected {
        match pieces.next() {
            Some(piece) if is_piece(piece, cut) => {}
            _ => return false,
        }
    }
    pieces.next().is_none()
}

/// Files, and their pieces.
const FILES: [(&[u8], &[Cut]); 4] = [
    (b"", &[(None, 1, b"")]),
    (b"add A\n @\n", &[(None, 1, b"add A\n @\n")]),
    (b"@ undo", &[(None, 1, b""), (Some((1, b"@ undo")), 2, b"")]),
    (
        b"# first\r\n@ open 1\r\n@ propose 1 0\nbegin\nend\n",
        &[
            (None, 1, b"# first\r\n"),
            (Some((2, b"@ open 1")), 3, b""),
            (Some((3, b"@ propose 1 0")), 4, b"begin\nend\n"),
        ],
    ),
];

#[test]
fn files_are_cut_before_each_mark(rt: HostRuntime) {
    for (bytes, expected) in &FILES {
        assert!(rt; is_cut(bytes, expected));
    }
}

/// The line and the rule of the first piece that has no commands.
fn fault_of(alloc: Global, bytes: &[u8]) -> Option<(u32, PieceRule)> {
    let mut pieces = pieces_in(bytes)?;
    while let Some(piece) = pieces.next() {
        if piece.body.len() > 1000 || piece.first_line > 1000 {
            return None;
        }
        if let Err(PieceStop::Fault { line, rule }) = piece_commands(alloc, piece) {
            return Some((line, rule));
        }
    }
    None
}

#[test]
fn faults_have_the_line_of_the_file(rt: HostRuntime) {
    let alloc = rt.alloc();
    assert!(rt;
        fault_of(alloc, b"@ undo\nbegin\n@ undo\nend\n")
            == Some((2, PieceRule::Script(ScriptRule::E2)))
    );
    assert!(rt;
        fault_of(alloc, b"begin\nend\n@ undo\nadd\n")
            == Some((4, PieceRule::Script(ScriptRule::E1)))
    );
    assert!(rt; fault_of(alloc, b"begin\nend\n@ undo\n").is_none());
}

/// Words, and the number that each writes.
const NUMBERS: [(&[u8], Option<u32>); 8] = [
    (b"0", Some(0)),
    (b"1024", Some(1024)),
    (b"4294967295", Some(4_294_967_295)),
    (b"4294967296", None),
    (b"01", None),
    (b"+1", None),
    (b"", None),
    (b"1 ", None),
];

#[test]
fn numbers_of_marks(rt: HostRuntime) {
    for (word, number) in &NUMBERS {
        assert!(rt; decimal_u32(word) == *number);
    }
}
