ghost use Rattle.std.specs.Prelude.{ℕ};
ghost use Rattle.lz_tree.specs.ScopedTrees.{ScopedStatement, ScopedProgram};
ghost use Rattle.lz_model.specs.CodeTraces.{Flow, Locals};
ghost use Rattle.lz_model.specs.Programs.{calls_within};
ghost use Rattle.lz_turns.specs.Seen.{Alike};
ghost use Rattle.lz_stations.specs.Stations.{Station};
ghost use Rattle.lz_stations.specs.StationMoves.{station_move, station_leaves};
ghost use Rattle.lz_stations.specs.StationRanks.{FallsTo, station_rank};
ghost use Rattle.lz_stations.specs.StationTraces.{station_trace, station_moved};

/// What is left of a statement at a station is what its next step leads to, with the local values that the step leaves,
/// Loc left out: at the first station it is the whole of the statement's traces, where a loop has at most `bound` turns.
/// Calls may go to any depth.
pub fn a_turn_of_a_statement()
    ensures { (p : ScopedProgram) (n bound depth : ℕ) (s : ScopedStatement) (station : Station) (v : ℕ) (flow : Flow) (locals : Locals) → Alike (station_trace (calls_within p n depth) bound s station v flow) locals (station_moved (calls_within p n depth) bound s (station_move bound s station v flow)) (station_leaves s station v locals) }
{}

/// Each step brings a statement nearer to its last station, where an expression or a statement in it is one step: so the
/// steps of a statement end, where its loop has at most `bound` turns. By itself a statement pauses for inputs alone.
pub fn steps_end()
    ensures { (bound : ℕ) (s : ScopedStatement) (station : Station) (v : ℕ) (flow : Flow) → FallsTo bound s (station_rank bound s station) (station_move bound s station v flow) }
{}
