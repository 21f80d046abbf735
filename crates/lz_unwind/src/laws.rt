ghost use Rattle.std.specs.Prelude.{ℕ, Bool, List, length, ◌≡◌, ◌<◌, ◌≤◌, ◌↔◌};
ghost use Rattle.lz_tree.specs.ScopedTrees.{ScopedProgram, function_at};
ghost use Rattle.lz_tree.specs.WellScoped.{IsWellScoped};
ghost use Rattle.lz_model.specs.Actions.{Act};
ghost use Rattle.lz_model.specs.Programs.{IsThreadTrace};
ghost use Rattle.lz_model.specs.WithoutLoc.{IsSeen};
ghost use Rattle.lz_bound.specs.BoundedTraces.{IsBoundedTrace};
ghost use Rattle.lz_bound.specs.CreateSites.{tree_sites, sites_within};
ghost use Rattle.lz_unwind.specs.Inlining.{thread_tree};

/// The traces of a thread, where each loop has at most n turns an entry, and those of its tree are the same sets, Loc
/// left out: for each function that a thread may run, with calls inlined deeper than they nest.
pub fn same_traces()
    ensures { (p : ScopedProgram) (n : ℕ) (well : IsWellScoped p) (f : ℕ) → f < length p.functions → (arguments : List ℕ) → length arguments ≤ (function_at p f).locals → (whole : Bool) (depth : ℕ) → well.plan.depth f < depth → (seen : List Act) → IsSeen (IsThreadTrace p n f arguments whole) seen ↔ IsSeen (IsBoundedTrace (thread_tree p n depth f) arguments whole) seen }
{}

/// The create sites of a thread's tree, in their order, name the functions of the thread's create sites, counted in the
/// order of the inlined and unwound text, one for one.
pub fn same_sites()
    ensures { (p : ScopedProgram) (n : ℕ) → IsWellScoped p → (f : ℕ) → f < length p.functions → (depth : ℕ) → tree_sites (thread_tree p n depth f) ≡ sites_within p n depth f }
{}
