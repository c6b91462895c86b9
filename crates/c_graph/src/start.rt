// Where runs begin.
ghost use Rattle.std.specs.Prelude.{◌≡◌};
ghost use Rattle.c_tree.specs.WellFormed.{IsWellFormed};
ghost use Rattle.c_tree.specs.declared.program.Program.{Program};
ghost use Rattle.c_graph.specs.Laws.{HasLaws};
ghost use Rattle.c_graph.specs.Met.{RunsFrom};

/// The node before the first item of `main`, or before its last gap.
pub fn start_node() -> usize
    ensures runs { (p : Program) → IsWellFormed p → RunsFrom p result }
    ensures laws { (p : Program) → IsWellFormed p → HasLaws p }
{
    0
}
