//! The definitions tried on a small design that is written out by hand, with its trees: the check computes each answer.
ghost use Rattle.std.specs.Prelude.{◌≡◌};
ghost use Rattle.oo7_schema.specs.declared.jobs.Extent.TheVariants.{A, B, C};
ghost use Rattle.oo7_schema.specs.declared.jobs.Job.TheVariants.{Traverse, Ask, Insert, Delete};
ghost use Rattle.oo7_schema.specs.declared.jobs.Query.TheVariants.{Q1, Q2, Q3, Q4, Q5, Q7};
ghost use Rattle.oo7_schema.specs.declared.jobs.Walk.TheVariants.{T1, T2, T3, T6, T8, T9};
ghost use Rattle.oo7_schema.specs.TriedDesign.{tried_design, answered, left_by};

/// What the traversals answer of a small design.
pub fn small_traversals()
    ensures t1 { answered (Traverse T1) tried_design ≡ 28 }
    ensures t2_a { answered (Traverse (T2 A)) tried_design ≡ 7 }
    ensures t2_b { answered (Traverse (T2 B)) tried_design ≡ 28 }
    ensures t2_c { answered (Traverse (T2 C)) tried_design ≡ 112 }
    ensures t3_a { answered (Traverse (T3 A)) tried_design ≡ 7 }
    ensures t3_b { answered (Traverse (T3 B)) tried_design ≡ 28 }
    ensures t3_c { answered (Traverse (T3 C)) tried_design ≡ 112 }
    ensures t6 { answered (Traverse T6) tried_design ≡ 7 }
    ensures t8 { answered (Traverse T8) tried_design ≡ 2 }
    ensures t9 { answered (Traverse T9) tried_design ≡ 1 }
{}

/// What the queries answer of it.
pub fn small_queries()
    ensures q1 { answered (Ask (Q1 3)) tried_design ≡ 420 }
    ensures q2 { answered (Ask Q2) tried_design ≡ 4 }
    ensures q3 { answered (Ask Q3) tried_design ≡ 6 }
    ensures q4 { answered (Ask (Q4 3)) tried_design ≡ 250 }
    ensures q5 { answered (Ask Q5) tried_design ≡ 2 }
    ensures q7 { answered (Ask Q7) tried_design ≡ 8 }
{}

/// What is answered once x and y of visited parts were swapped.
pub fn small_swaps()
    ensures visits { answered (Traverse T1) (left_by (Traverse (T2 B))) ≡ 28 }
    ensures roots { answered (Ask (Q1 3)) (left_by (Traverse (T2 A))) ≡ 357 }
    ensures parts { answered (Ask (Q1 3)) (left_by (Traverse (T2 B))) ≡ 159 }
    ensures four { answered (Ask (Q1 3)) (left_by (Traverse (T2 C))) ≡ 420 }
{}

/// What is answered once dates were turned.
pub fn small_dates()
    ensures roots { answered (Ask Q3) (left_by (Traverse (T3 A))) ≡ 5 }
    ensures ten { answered (Ask Q2) (left_by (Traverse (T3 B))) ≡ 2 }
    ensures hundred { answered (Ask Q3) (left_by (Traverse (T3 B))) ≡ 4 }
    ensures four { answered (Ask Q2) (left_by (Traverse (T3 C))) ≡ 4 }
{}

/// What `insert` answers, and what is answered behind it.
pub fn small_insertion()
    ensures made { answered (Insert 3) tried_design ≡ 20 }
    ensures parts { answered (Ask Q7) (left_by (Insert 3)) ≡ 28 }
    ensures visits { answered (Traverse T1) (left_by (Insert 3)) ≡ 48 }
    ensures taken { answered (Delete 5) (left_by (Insert 3)) ≡ 20 }
{}

/// What `delete` answers, and what is answered behind it: the design has two composite parts.
pub fn small_deletion()
    ensures taken { answered (Delete 3) tried_design ≡ 8 }
    ensures parts { answered (Ask Q7) (left_by (Delete 3)) ≡ 0 }
    ensures visits { answered (Traverse T1) (left_by (Delete 3)) ≡ 0 }
{}
