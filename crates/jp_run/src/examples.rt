//! Worked examples of what has come of a stream, and of its numbers.

ghost use Rattle.std.specs.Prelude.{◌≡◌, [], ◌∷◌, ◌++◌, codes};
ghost use Rattle.jp_run.specs.Cutting.{documents, documents_in, from_one, last_number, part_count};
ghost use Rattle.jp_run.specs.Cutting.{progress_in};
ghost use Rattle.jp_run.specs.declared.cutting.Cutting.TheVariants.{Lines, Documents};

/// The lines `1`, an empty one, `2` and `3`, the last without its end.
fn documents_whose_end_was_read()
    ensures some { documents_in (from_one Lines) (codes "1" ++ 10 ∷ 10 ∷ codes "2" ++ 10 ∷ codes "3")
        ≡ (1, codes "1") ∷ (3, codes "2") ∷ [] }
    ensures none { documents_in (from_one Lines) (codes "1") ≡ [] }
    ensures all { documents (from_one Lines) (codes "1" ++ 10 ∷ 10 ∷ codes "2" ++ 10 ∷ codes "3")
        ≡ (1, codes "1") ∷ (3, codes "2") ∷ (4, codes "3") ∷ [] }
    ensures last { last_number (from_one Lines) (codes "1" ++ 10 ∷ 10 ∷ codes "2" ++ 10 ∷ codes "3") ≡ 4 }
{}

/// A document over two lines, a second behind it, and a number: its end is not known before the next byte.
fn documents_over_lines()
    ensures come { documents_in (from_one Documents) (codes "[1," ++ 10 ∷ codes "2] {} 3")
        ≡ (1, codes "[1," ++ 10 ∷ codes "2]") ∷ (2, codes "{}") ∷ [] }
    ensures all { documents (from_one Documents) (codes "[1," ++ 10 ∷ codes "2] {} 3")
        ≡ (1, codes "[1," ++ 10 ∷ codes "2]") ∷ (2, codes "{}") ∷ (3, codes "3") ∷ [] }
    ensures lines { part_count Lines (codes "[1," ++ 10 ∷ codes "2] {} 3") ≡ 2 }
    ensures documents { part_count Documents (codes "[1," ++ 10 ∷ codes "2] {} 3") ≡ 3 }
{}

/// The same lines behind two others.
fn lines_behind_two()
    ensures some { documents_in (record { cutting = Lines; before = 2 })
        (codes "1" ++ 10 ∷ 10 ∷ codes "2" ++ 10 ∷ codes "3") ≡ (3, codes "1") ∷ (5, codes "2") ∷ [] }
    ensures all { documents (record { cutting = Lines; before = 2 })
        (codes "1" ++ 10 ∷ 10 ∷ codes "2" ++ 10 ∷ codes "3")
        ≡ (3, codes "1") ∷ (5, codes "2") ∷ (6, codes "3") ∷ [] }
    ensures last { last_number (record { cutting = Lines; before = 2 })
        (codes "1" ++ 10 ∷ 10 ∷ codes "2" ++ 10 ∷ codes "3") ≡ 6 }
    ensures progress { progress_in (record { cutting = Lines; before = 2 })
        (codes "1" ++ 10 ∷ 10 ∷ codes "2" ++ 10 ∷ codes "3") ≡ record { count = 5; open_line = codes "3" } }
    ensures none { last_number (record { cutting = Lines; before = 2 }) [] ≡ 2 }
{}

/// The same documents behind two others.
fn documents_behind_two()
    ensures come { documents_in (record { cutting = Documents; before = 2 })
        (codes "[1," ++ 10 ∷ codes "2] {} 3")
        ≡ (3, codes "[1," ++ 10 ∷ codes "2]") ∷ (4, codes "{}") ∷ [] }
    ensures all { documents (record { cutting = Documents; before = 2 })
        (codes "[1," ++ 10 ∷ codes "2] {} 3")
        ≡ (3, codes "[1," ++ 10 ∷ codes "2]") ∷ (4, codes "{}") ∷ (5, codes "3") ∷ [] }
    ensures last { last_number (record { cutting = Documents; before = 2 })
        (codes "[1," ++ 10 ∷ codes "2] {} 3") ≡ 5 }
{}
