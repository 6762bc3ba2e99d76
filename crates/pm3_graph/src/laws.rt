//! Laws over the definitions. Each is a function with an empty body, whose clauses are the law.
ghost use Rattle.pm3_graph.specs.Frame.{FrameOfSteps, FrameOfRuns, FrameKeepsParts};
ghost use Rattle.pm3_graph.specs.StepLaws.{KeepsGraphs, KeepsParts, KeepsFits, WritesStand};

/// The frame law: a step on a part is a step, with the same answer, on every graph of which it is part and which lacks a name
/// that it makes; the graph then has what the step made of the part.
pub fn frame()
    ensures step { FrameOfSteps }
    ensures part { FrameKeepsParts }
{}

/// The frame law of a run of operations.
pub fn frame_of_runs()
    ensures { FrameOfRuns }
{}

/// Allowed steps lead from graphs to graphs, from parts to parts, and from records that fit the catalog to such records.
pub fn kept_by_steps()
    ensures graphs { KeepsGraphs }
    ensures parts { KeepsParts }
    ensures fits { KeepsFits }
{}

/// What was written is read.
pub fn written_places()
    ensures { WritesStand }
{}
