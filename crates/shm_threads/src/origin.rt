//! What a run began with, as ghosts that each run picks at its call.

use std::marker::Brand;

/// The script of a run, the world at its start, the cell of the keeper that was passed in and what it had
/// stored, the answers that the gate may give before each call, and whether the strands keep their entries.
pub trait Origin {
    ghost use Rattle.std.specs.Prelude.{Option, List, ℕ, Bool};
    ghost use Rattle.shm_history.specs.Gauges.{CellName};
    ghost use Rattle.shm_history.specs.WorldState.{WorldState};
    ghost use Rattle.shm_history.specs.declared.cell.Reading.{Reading};
    ghost use Rattle.shm_text.specs.Script.{ScriptView};

    ghost script: { ScriptView };

    ghost start: { WorldState };

    ghost cell: { Option CellName };

    ghost stored: { List Reading };

    ghost answers: { ℕ → ℕ → Bool → Bool };

    ghost is_kept: { Bool };
}

impl Origin for Brand {
    ghost use Rattle.std.specs.Prelude.{[], None, false};
    ghost use Rattle.shm_threads.specs.Running.{no_script, no_world};

    ghost script = { no_script };

    ghost start = { no_world };

    ghost cell = { None };

    ghost stored = { [] };

    ghost answers = { λ pid n may. false };

    ghost is_kept = { false };
}
