//! The definitions of job lists, of reports and of the room of a command, tried on worked lines: the check computes each value.
ghost use Rattle.std.specs.Prelude.{◌≡◌, [], ◌∷◌, true, false, None, Some, codes};
ghost use Rattle.oo7_schema.specs.declared.jobs.Extent.TheVariants.{B};
ghost use Rattle.oo7_schema.specs.declared.jobs.Job.TheVariants.{Traverse, Ask, Insert};
ghost use Rattle.oo7_schema.specs.declared.jobs.Query.TheVariants.{Q1, Q3, Q7};
ghost use Rattle.oo7_schema.specs.declared.jobs.Walk.TheVariants.{T1, T2, T3};
ghost use Rattle.oo7_schema.specs.declared.sizes.Size.TheVariants.{Tiny, Small};
ghost use Rattle.oo7_schema.specs.JobLines.{job_of, jobs_of, wrong_line};
ghost use Rattle.oo7_schema.specs.Report.{report};
ghost use Rattle.oo7_schema.specs.Room.{part, room};
ghost use Rattle.oo7_schema.specs.Sizes.{params_of};
ghost use Rattle.oo7_schema.specs.TriedDesign.{tried_reading};

/// Lines that are jobs, and lines that are none.
pub fn worked_lines()
    ensures seed { job_of (codes "Q1 3") ≡ Some (Ask (Q1 3)) }
    ensures greatest { job_of (codes "insert 18446744073709551615") ≡ Some (Insert 18446744073709551615) }
    ensures too_great { job_of (codes "insert 18446744073709551616") ≡ None }
    ensures leading_zero { job_of (codes "Q1 03") ≡ None }
    ensures two_spaces { job_of (codes "T2  b") ≡ None }
    ensures nothing { job_of [] ≡ None }
{}

/// Job lists: the jobs of one, and the first line that is none.
pub fn worked_lists()
    ensures jobs { jobs_of (codes "T2 b\nQ7") ≡ Traverse (T2 B) ∷ Ask Q7 ∷ [] }
    ensures right { wrong_line (codes "T1\nQ7\n") ≡ None }
    ensures wrong { wrong_line (codes "T1\n\nQ7\n") ≡ Some 2 }
{}

/// The report of two jobs on a small design, in either order of their commits.
pub fn worked_reports()
    ensures first { report tried_reading (Traverse (T3 B) ∷ Ask Q3 ∷ []) (1 ∷ 2 ∷ []) ≡ codes "1 T3 b 28\n2 Q3 4\n" }
    ensures second { report tried_reading (Traverse (T3 B) ∷ Ask Q3 ∷ []) (2 ∷ 1 ∷ []) ≡ codes "1 T3 b 28\n2 Q3 6\n" }
{}

/// The room of builds, and of a run of two jobs.
pub fn worked_rooms()
    ensures part { part (params_of Tiny) ≡ 189 }
    ensures tiny { room (params_of Tiny) true [] ≡ 9550 }
    ensures small { room (params_of Small) true [] ≡ 21580128 }
    ensures run { room (params_of Tiny) false (Traverse (T2 B) ∷ Insert 3 ∷ []) ≡ 170100 }
{}
