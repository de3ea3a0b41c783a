//! The scripts of a number as texts.
ghost use Rattle.std.specs.Prelude.{◌≡◌, ℕ};
ghost use Rattle.sql_tree.specs.Pieces.{pieces_of};
ghost use Rattle.sample_scripts.specs.Scripts as told;
ghost use Rattle.sample_scripts.specs.Scripts.{script_text};

/// A law, with nothing to run: the statements of each script are the pieces of its text, in which
/// each is followed by `;`.
pub fn statements_are_pieces()
    ensures changes { (seed : ℕ) → pieces_of (script_text (told.changes seed)) ≡ told.changes seed }
    ensures queries { (seed : ℕ) → pieces_of (script_text (told.queries seed)) ≡ told.queries seed }
{}
