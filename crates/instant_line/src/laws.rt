// Laws of timelines, over the definitions of specs/.
ghost use Rattle.std.specs.Prelude.{◌≡◌, ◌↔◌, ℕ, List};
ghost use Rattle.file_names.specs.declared.file_name.Action.{Action};
ghost use Rattle.file_names.specs.declared.file_name.FileName.{FileName};
ghost use Rattle.file_names.specs.declared.file_name.State.{State};
ghost use Rattle.instant_line.specs.Line.{Line, IsLine, IsAt};
ghost use Rattle.instant_line.specs.LineFiles.{AreFilesOf, BreaksAt};

/// What a timeline says of each time tells all of it, and so do the names of its files. It does nothing: its clauses
/// are the laws.
pub fn timelines_and_instants_agree()
    // An instant does one thing, and is in one state.
    ensures one_stage { (line : Line) (t : ℕ) (action other : Action) (state at : State)
        → IsLine line → IsAt line t action state → IsAt line t other at → (action ≡ other) × (state ≡ at) }
    ensures same_line { (first second : Line) → IsLine first → IsLine second
        → ((t : ℕ) (action : Action) (state : State) → IsAt first t action state ↔ IsAt second t action state)
        → first ≡ second }

    // The files of a timeline don't break it, and no other timeline has them.
    ensures unbroken { (line : Line) (names : List FileName) (i t : ℕ) (action : Action) (state : State)
        → IsLine line → AreFilesOf line names → ¬ BreaksAt names i t action state }
    ensures one_line { (first second : Line) (names : List FileName)
        → IsLine first → IsLine second → AreFilesOf first names → AreFilesOf second names → first ≡ second }
{}
