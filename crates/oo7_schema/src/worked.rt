//! The definitions tried on the tiny design of seed 7: each answer below was found by another program, and the check computes it.
ghost use Rattle.std.specs.Prelude.{◌≡◌, [], ◌∷◌, map};
ghost use Rattle.oo7_schema.specs.declared.jobs.Extent.TheVariants.{A, B, C};
ghost use Rattle.oo7_schema.specs.Changes.{insert, delete};
ghost use Rattle.oo7_schema.specs.Draws.{begun, drawn};
ghost use Rattle.oo7_schema.specs.Lookup.{word};
ghost use Rattle.oo7_schema.specs.Members.{neighbours};
ghost use Rattle.oo7_schema.specs.Queries.{q1, q2, q3, q4, q5, q7};
ghost use Rattle.oo7_schema.specs.Sized.{design};
ghost use Rattle.oo7_schema.specs.Traversals.{t1, t2, t3, t6, t8, t9, changes};
ghost use Rattle.oo7_schema.specs.Tried.{hundred_names};

/// The first number of the reference generator of PCG.
pub fn reference_draw()
    ensures { drawn (4294967296 ∷ []) (begun 42 54) ≡ 0xa15c02b7 ∷ [] }
{}

/// The words of the first composite part and of its atomic parts, and where the connections of these lead.
pub fn first_composite()
    ensures date { word (design 0 7).look 21 1 ≡ 581 }
    ensures first { map (word (design 0 7).look 23) (0 ∷ 1 ∷ 2 ∷ 3 ∷ 4 ∷ []) ≡ 1 ∷ 1 ∷ 1221 ∷ 68036 ∷ 30070 ∷ [] }
    ensures last { map (word (design 0 7).look 26) (0 ∷ 1 ∷ 2 ∷ 3 ∷ 4 ∷ []) ≡ 4 ∷ 2 ∷ 1855 ∷ 44665 ∷ 82129 ∷ [] }
    ensures from_first { neighbours (design 0 7).look 23 ≡ 24 ∷ 23 ∷ 26 ∷ [] }
    ensures from_last { neighbours (design 0 7).look 26 ≡ 23 ∷ 26 ∷ 25 ∷ [] }
{}

/// What the traversals answer.
pub fn tiny_traversals()
    ensures t1 { t1 (design 0 7) ≡ 108 }
    ensures t6 { t6 (design 0 7) ≡ 27 }
    ensures t2_a { changes (design 0 7) A ≡ 27 }
    ensures t2_c { changes (design 0 7) C ≡ 432 }
    ensures t8 { t8 (design 0 7) ≡ 28 }
    ensures t9 { t9 (design 0 7) ≡ 1 }
{}

/// What the queries answer.
pub fn tiny_queries()
    ensures q1 { q1 (design 0 7) 3 ≡ 638887 }
    ensures q2 { q2 (design 0 7) ≡ 0 }
    ensures q3 { q3 (design 0 7) ≡ 2 }
    ensures q4 { q4 (design 0 7) 3 ≡ 218 }
    ensures q5 { q5 (design 0 7) ≡ 6 }
    ensures q7 { q7 (design 0 7) ≡ 40 }
{}

/// What is answered once x and y of each visited part were swapped, or dates were turned.
pub fn tiny_changes()
    ensures swapped { q1 (t2 (design 0 7) B) 3 ≡ 526781 }
    ensures turned { q3 (t3 (design 0 7) A) ≡ 2 }
{}

/// What is answered once five composite parts were made, and once five were taken out of these.
pub fn tiny_parts()
    ensures made { (insert (design 0 7) 3 hundred_names).parts ≡ 20 }
    ensures then { q7 (insert (design 0 7) 3 hundred_names).design ≡ 60 }
    ensures taken { (delete (insert (design 0 7) 3 hundred_names).design 3).parts ≡ 20 }
    ensures rest { q7 (delete (insert (design 0 7) 3 hundred_names).design 3).design ≡ 40 }
{}

/// What is answered once five composite parts were taken out.
pub fn tiny_deletion()
    ensures parts { t1 (delete (design 0 7) 3).design ≡ 64 }
    ensures younger { q5 (delete (design 0 7) 3).design ≡ 4 }
{}
