//! Laws of flat programs that hold of all of them. Each function does nothing; its clause is the law.

ghost use Rattle.lz_flat.specs.DrivenRuns.{DrivesItsRun};
ghost use Rattle.lz_flat.specs.Naming.{RestOnNames};
ghost use Rattle.lz_flat.specs.Steps.{BreaksAtItsLast, RunsItsCount};
ghost use Rattle.lz_flat.specs.Running.{OnwardOver};

/// What an instruction does rests on the words that it names, and it changes no other.
pub fn effects_rest_on_names()
    ensures { RestOnNames }
{}

/// A step runs a group of hidden instructions one after the other.
pub fn groups_run_through()
    ensures { OnwardOver }
{}

/// A step that goes runs as many places as instructions; one that breaks, breaks at its last place.
pub fn steps_run_places()
    ensures count { RunsItsCount }
    ensures last { BreaksAtItsLast }
{}

/// Where inputs drive a break, the run that they drive breaks so.
pub fn inputs_drive_a_run()
    ensures { DrivesItsRun }
{}
