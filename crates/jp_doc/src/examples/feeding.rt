//! Lines that come in pieces: the count goes on, and so does the line that is open.

ghost use Rattle.std.specs.Prelude.{◌≡◌, [], ◌∷◌, ◌++◌, codes, true, false};
ghost use Rattle.jp_doc.specs.Feeding.{Progress, cut, has_line_feed, numbered, last_line};
ghost use Rattle.jp_doc.specs.Feeding.{nothing_fed, fed, fed_lines, finished, finished_lines};
ghost use Rattle.jp_doc.specs.Feeding.{lines_of_pieces, after_pieces};

fn pieces()
    ensures lines { fed_lines (record { count = 4; open_line = codes "a" })
        (codes "b" ++ 13 ∷ 10 ∷ 10 ∷ codes "c")
        ≡ (5, codes "ab" ++ 13 ∷ []) ∷ [] }
    ensures progress { fed (record { count = 4; open_line = codes "a" })
        (codes "b" ++ 13 ∷ 10 ∷ 10 ∷ codes "c")
        ≡ record { count = 6; open_line = codes "c" } }
    ensures none_ended { fed_lines nothing_fed (codes "a") ≡ [] }
    ensures open { fed nothing_fed (codes "a") ≡ record { count = 0; open_line = codes "a" } }
    ensures longer { fed (record { count = 4; open_line = codes "a" }) (codes "b")
        ≡ record { count = 4; open_line = codes "ab" } }
    ensures empty { fed (record { count = 4; open_line = codes "a" }) []
        ≡ record { count = 4; open_line = codes "a" } }
    ensures first_number { fed_lines nothing_fed (codes "a" ++ 10 ∷ []) ≡ (1, codes "a") ∷ [] }
    ensures none_left { fed nothing_fed (codes "a" ++ 10 ∷ []) ≡ record { count = 1; open_line = [] } }
{}

fn last_piece()
    ensures line { finished_lines (record { count = 6; open_line = codes "c" }) ≡ (7, codes "c") ∷ [] }
    ensures progress { finished (record { count = 6; open_line = codes "c" })
        ≡ record { count = 7; open_line = [] } }
    ensures blank_line { finished_lines (record { count = 6; open_line = 32 ∷ [] }) ≡ [] }
    ensures blank_line_counted { finished (record { count = 6; open_line = 32 ∷ [] })
        ≡ record { count = 7; open_line = [] } }
    ensures none_open { finished (record { count = 6; open_line = [] })
        ≡ record { count = 6; open_line = [] } }
    ensures none_open_line { finished_lines (record { count = 6; open_line = [] }) ≡ [] }
    ensures no_last_line { last_line [] ≡ [] }
    ensures blank_last_line { last_line (32 ∷ []) ≡ (32 ∷ []) ∷ [] }
{}

fn all_pieces()
    ensures lines { lines_of_pieces nothing_fed (codes "a" ∷ (10 ∷ 10 ∷ []) ∷ codes "b" ∷ codes "c" ∷ [])
        ≡ (1, codes "a") ∷ (3, codes "bc") ∷ [] }
    ensures progress { after_pieces nothing_fed (codes "a" ∷ (10 ∷ 10 ∷ []) ∷ codes "b" ∷ codes "c" ∷ [])
        ≡ record { count = 3; open_line = [] } }
    ensures none { lines_of_pieces nothing_fed [] ≡ [] }
    ensures no_progress { after_pieces nothing_fed [] ≡ nothing_fed }
{}

fn cuts()
    ensures ended { (cut (codes "a" ++ 10 ∷ 10 ∷ codes "bc")).ended ≡ codes "a" ∷ [] ∷ [] }
    ensures open { (cut (codes "a" ++ 10 ∷ 10 ∷ codes "bc")).open_line ≡ codes "bc" }
    ensures none_ended { (cut (codes "a" ++ 13 ∷ [])).ended ≡ [] }
    ensures none_open { (cut (codes "a" ++ 10 ∷ [])).open_line ≡ [] }
    ensures numbers { numbered 5 (codes "a" ∷ (32 ∷ []) ∷ codes "b" ∷ [])
        ≡ (5, codes "a") ∷ (7, codes "b") ∷ [] }
{}

fn line_feeds()
    ensures none { has_line_feed [] ≡ false }
    ensures no_carriage_return { has_line_feed (codes "a" ++ 13 ∷ []) ≡ false }
    ensures first { has_line_feed (10 ∷ codes "a") ≡ true }
    ensures last { has_line_feed (codes "a" ++ 10 ∷ []) ≡ true }
{}
