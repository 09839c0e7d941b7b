//! Worked examples of the definitions.

ghost use Rattle.std.specs.Prelude.{◌≡◌, [], ◌∷◌, ◌++◌, codes};
ghost use Rattle.jp_doc.specs.Feeding.{finished_lines, nothing_fed};
ghost use Rattle.jp_buffer.specs.Buffered.{nothing_fed_behind};
ghost use Rattle.jp_documents.specs.Documents.{all_documents, cut, documents};
ghost use Rattle.jp_documents.specs.Feeding.{fed, fed_documents};
ghost use Rattle.jp_documents.specs.inner.Finding.{lead_over, run_len, matters_in_brackets, matters_in_text};
ghost use Rattle.jp_documents.specs.declared.place.Lead.TheVariants.{MayBegin, Within, AtLine};

fn texts()
    ensures none { all_documents [] ≡ [] }
    ensures blanks { all_documents (32 ∷ 9 ∷ 13 ∷ 10 ∷ []) ≡ [] }
    ensures words { all_documents (codes "1\n2 null") ≡ codes "1" ∷ codes "2" ∷ codes "null" ∷ [] }
    ensures nothing_between { all_documents (codes "{}[1]\"a\"\"b\"")
        ≡ codes "{}" ∷ codes "[1]" ∷ codes "\"a\"" ∷ codes "\"b\"" ∷ [] }
    ensures number_and_text { all_documents (codes "1\"a\"2") ≡ codes "1" ∷ codes "\"a\"" ∷ codes "2" ∷ [] }
    ensures number_behind { all_documents (codes "[1]2") ≡ codes "[1]" ∷ codes "2" ∷ [] }
    ensures numbers { documents (codes "\n{}\n\n[]") ≡ (1, codes "{}") ∷ (2, codes "[]") ∷ [] }
{}

fn texts_over_lines()
    ensures one { all_documents (codes "{\n  \"a\": [\n    1\n  ]\n}\n")
        ≡ codes "{\n  \"a\": [\n    1\n  ]\n}" ∷ [] }
    ensures brackets_at_lines { all_documents (codes "[\n[1],\n[2]\n,\n{\"a\":\n{}}\n]")
        ≡ codes "[\n[1],\n[2]\n,\n{\"a\":\n{}}\n]" ∷ [] }
    ensures brackets_in_a_string { all_documents (codes "[\"]{\"] 1") ≡ codes "[\"]{\"]" ∷ codes "1" ∷ [] }
    ensures escaped_quote { all_documents (codes "[\"\\\"]\"] 1") ≡ codes "[\"\\\"]\"]" ∷ codes "1" ∷ [] }
    ensures escaped_backslash { all_documents (codes "[\"\\\\\"]\"]")
        ≡ codes "[\"\\\\\"]" ∷ codes "\"]" ∷ [] }
{}

fn faulty_brackets()
    ensures closed_twice { all_documents (codes "{\"a\":1}}\n{}")
        ≡ codes "{\"a\":1}" ∷ codes "}" ∷ codes "{}" ∷ [] }
    ensures closed_first { all_documents (codes "}{") ≡ codes "}" ∷ codes "{" ∷ [] }
    ensures other_kind { all_documents (codes "[} 1") ≡ codes "[}" ∷ codes "1" ∷ [] }
    ensures bracket_missing { all_documents (codes "{\n \"a\": [\n  1\n}\n{\n \"b\": 2\n}")
        ≡ codes "{\n \"a\": [\n  1\n}\n" ∷ codes "{\n \"b\": 2\n}" ∷ [] }
    ensures comma_missing { all_documents (codes "[\n [1]\n [2]\n]") ≡ codes "[\n [1]\n [2]\n]" ∷ [] }
    ensures cut_off { all_documents (codes "{\"a\":\"b\n{}") ≡ codes "{\"a\":\"b\n" ∷ codes "{}" ∷ [] }
    ensures cut_off_behind_a_comma { all_documents (codes "[1,\n[2]") ≡ codes "[1,\n[2]" ∷ [] }
    ensures open_at_the_end { all_documents (codes "{} [1, 2") ≡ codes "{}" ∷ codes "[1, 2" ∷ [] }
{}

fn faulty_texts()
    ensures commas { all_documents (codes "[1],[2]") ≡ codes "[1]" ∷ codes "," ∷ codes "[2]" ∷ [] }
    ensures open_string { all_documents (codes "\"a\n{}") ≡ codes "\"a" ∷ codes "{}" ∷ [] }
    ensures open_string_inside { all_documents (codes "{\n\"a: 1\n}\n{}")
        ≡ codes "{\n\"a: 1\n}" ∷ codes "{}" ∷ [] }
    ensures backslash_at_a_line { all_documents (codes "\"a\\\n\"b\"") ≡ codes "\"a\\" ∷ codes "\"b\"" ∷ [] }
    ensures mark { all_documents (239 ∷ 187 ∷ 191 ∷ codes "{}")
        ≡ (239 ∷ 187 ∷ 191 ∷ []) ∷ codes "{}" ∷ [] }
    ensures comment { all_documents (codes "// it's\n{}")
        ≡ codes "//" ∷ codes "it's" ∷ codes "{}" ∷ [] }
{}

fn pieces()
    ensures ended { (cut (codes "{} [1")).ended ≡ codes "{}" ∷ [] }
    ensures left_open { (cut (codes "{} [1")).open_line ≡ codes "[1" }
    ensures first_piece { fed_documents nothing_fed (codes "{} [1") ≡ (1, codes "{}") ∷ [] }
    ensures second_piece { fed_documents (fed nothing_fed (codes "{} [1")) (codes "2]3")
        ≡ (2, codes "[12]") ∷ [] }
    ensures last { finished_lines (fed (fed nothing_fed (codes "{} [1")) (codes "2]3"))
        ≡ (3, codes "3") ∷ [] }
{}

/// Two documents have ended before the first piece.
fn pieces_behind_two()
    ensures first_piece { fed_documents (nothing_fed_behind 2) (codes "{} [1") ≡ (3, codes "{}") ∷ [] }
    ensures second_piece { fed_documents (fed (nothing_fed_behind 2) (codes "{} [1")) (codes "2]3")
        ≡ (4, codes "[12]") ∷ [] }
    ensures last { finished_lines (fed (fed (nothing_fed_behind 2) (codes "{} [1")) (codes "2]3"))
        ≡ (5, codes "3") ∷ [] }
{}

fn runs()
    ensures in_brackets { run_len matters_in_brackets (codes "1, \\2]") ≡ 5 }
    ensures in_text { run_len matters_in_text (codes "a]\"") ≡ 2 }
    ensures comma { lead_over Within (codes "1,\n ") ≡ MayBegin }
    ensures line { lead_over MayBegin (codes "1\n") ≡ AtLine }
    ensures within { lead_over AtLine (codes " ") ≡ Within }
{}
