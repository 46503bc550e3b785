//! The processes, each with its pieces.
ghost use Rattle.std.specs.Prelude.{◌≡◌, ◌++◌, OnOk, string_bytes};
ghost use Rattle.shm_areas.specs.Arranged.{bare, bare_all};
ghost use Rattle.shm_program.specs.Record.{piece_line, pieces_text, process_text, processes_text};

use shm_areas::Piece;
use shm_attach::Spaces;
use shm_base::Process;
use std::alloc::AllocError;

fn push_piece(text: &mut String, piece: &Piece) -> Result<(), AllocError>
    ensures { OnOk result (string_bytes text.new ≡ string_bytes text.old ++ piece_line (bare piece.now)) }
{
    let (base, seg, first, pages) = (piece.base, piece.seg, piece.first_page, piece.pages);
    let rights = if piece.writable { "rw" } else { "ro" };
    write!(text, "piece 0x{base:x} {seg} {first} {pages} {rights}\n")
}

fn push_pieces(text: &mut String, pieces: &[Piece]) -> Result<(), AllocError>
    ensures { OnOk result
        (string_bytes text.new ≡ string_bytes text.old ++ pieces_text (bare_all pieces.now)) }
{
    for piece in pieces {
        push_piece(text, piece)?;
    }
    Ok(())
}

fn push_process(text: &mut String, spaces: &Spaces, pid: u32) -> Result<(), AllocError>
    ensures { OnOk result
        (string_bytes text.new ≡ string_bytes text.old ++ process_text spaces.now.runners pid) }
{
    let Some(caller) = spaces.caller(pid) else {
        let state = match spaces.child(pid) {
            Some(_) => "unborn",
            None => "ended",
        };
        return write!(text, "process {pid} {state}\n");
    };
    let (uid, gid) = (caller.cred.uid, caller.cred.gid);
    write!(text, "process {pid} live {uid} {gid}\n")?;
    push_pieces(text, spaces.space(&caller).pieces())
}

// Appends the lines of these processes to a text.
pub(crate) fn push_processes(
    text: &mut String,
    spaces: &Spaces,
    processes: &[Process],
) -> Result<(), AllocError>
    ensures { OnOk result
        (string_bytes text.new ≡ string_bytes text.old ++ processes_text spaces.now.runners processes.now) }
{
    for process in processes {
        push_process(text, spaces, process.pid)?;
    }
    Ok(())
}
