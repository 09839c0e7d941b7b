//! Worked examples of the definitions: a change of one case of one, or of one edge, breaks an example.

ghost use Rattle.std.specs.Prelude.{◌≡◌, ◌++◌, [], ◌∷◌, codes, replicate, true, false, Some, None};
ghost use Rattle.std.specs.Prelude.{IsTrue, IsFalse};
ghost use Rattle.jp_tree.specs.declared.tree.Operator.TheVariants as op;
ghost use Rattle.jp_tree.specs.Tree.{name, wildcard, index, slice, filter, negation, single, value_call};
ghost use Rattle.jp_tree.specs.Tree.{literal, number, text, truth, null, child, descendant, test};
ghost use Rattle.jp_tree.specs.Tree.{test_call};
ghost use Rattle.jp_tree.specs.Tree.{literal_argument, query_argument, logical_argument, call_argument};
ghost use Rattle.jp_tree.specs.Characters as class;
ghost use Rattle.jp_tokens.specs.Depth.{bracket_depth, max_depth};
ghost use Rattle.jp_tree.specs.Singular.{is_singular};
ghost use Rattle.jp_tree.specs.Strings.{IsString};
ghost use Rattle.jp_tree.specs.Spelling.{Spells};
ghost use Rattle.jp_syntax.specs.Examples.{Holds, HoldsNone, AreInts, AreNoInts, AreNumbers, AreNoNumbers};
ghost use Rattle.jp_syntax.specs.Examples.{NoneIsString, NoneSpells};
ghost use Rattle.jp_syntax.specs.Examples.{member, item, from_root, from_current, selecting, filtering, its};
ghost use Rattle.jp_syntax.specs.Examples.{has};
ghost use Rattle.jp_syntax.specs.Examples.{one, equal, comparing_node, comparing_literal, calling, both};
ghost use Rattle.jp_syntax.specs.Examples.{either};
ghost use Rattle.jp_syntax.specs.Examples.{testing, testing_call, comparing_call};

// The bracket depth. 91 is `[`.

fn depths()
    ensures empty { bracket_depth (codes "") ≡ 0 }
    ensures dollar { bracket_depth (codes "$") ≡ 0 }
    ensures one_pair { bracket_depth (codes "$[0]") ≡ 1 }
    ensures two_pairs { bracket_depth (codes "$[0][1]") ≡ 1 }
    ensures nested { bracket_depth (codes "$[?(@[0])]") ≡ 3 }
    ensures two_parentheses { bracket_depth (codes "$[?(@)||(@)]") ≡ 2 }
    ensures quoted { bracket_depth (codes "$[\"([\"]") ≡ 1 }
    ensures other_quote { bracket_depth (codes "$['\"[']") ≡ 1 }
    ensures other_quote_again { bracket_depth (codes "$[\"'[\"]") ≡ 1 }
    ensures escaped_quote { bracket_depth (codes "$['\\'[']") ≡ 1 }
    ensures escaped_backslash { bracket_depth (codes "$['\\\\'[(") ≡ 3 }
    ensures escaped_letter { bracket_depth (codes "$['\\n'[(") ≡ 3 }
    ensures closed_quote { bracket_depth (codes "''[") ≡ 1 }
    ensures backslash_outside { bracket_depth (codes "\\'[") ≡ 0 }
    ensures closing_in_quotes { bracket_depth (codes "[']'[") ≡ 2 }
    ensures unopened { bracket_depth (codes "$]](") ≡ 1 }
    ensures any_closing { bracket_depth (codes "$[(]]") ≡ 2 }
    ensures closing_parenthesis { bracket_depth (codes "()()[") ≡ 1 }
    ensures one_of_two_closed { bracket_depth (codes "[[][[") ≡ 3 }
    ensures unclosed_quote { bracket_depth (codes "$'[[[") ≡ 0 }
    ensures hundred_in_quotes { bracket_depth (codes "$['" ++ replicate 100 91 ++ codes "']") ≡ 1 }
    ensures at_the_limit { bracket_depth (codes "$" ++ replicate 64 91) ≡ 64 }
    ensures past_the_limit { bracket_depth (codes "$" ++ replicate 65 91) ≡ 65 }
    ensures limit { max_depth ≡ 64 }
{}

// Which queries are singular.

fn singular_queries()
    ensures dollar { IsTrue (is_singular (from_root [])) }
    ensures index_and_name { IsTrue (is_singular (from_root (item (codes "0") ∷ member (codes "a") ∷ []))) }
    ensures current { IsTrue (is_singular (its (codes "a"))) }
{}

fn queries_that_are_not_singular()
    ensures of_a_wildcard { IsFalse (is_singular (selecting (wildcard ∷ []))) }
    ensures of_a_descendant { IsFalse (is_singular (from_root (descendant (name (codes "a") ∷ []) ∷ []))) }
    ensures of_an_index_below { IsFalse (is_singular (from_root (descendant (index (codes "0") ∷ []) ∷ []))) }
    ensures of_two_selectors { IsFalse (is_singular (selecting
        (index (codes "0") ∷ index (codes "0") ∷ []))) }
    ensures of_no_selector { IsFalse (is_singular (selecting [])) }
    ensures of_a_slice { IsFalse (is_singular (selecting (slice None None None ∷ []))) }
    ensures of_a_filter { IsFalse (is_singular (filtering (has (codes "a")))) }
    ensures past_the_first { IsFalse (is_singular (from_root
        (member (codes "a") ∷ child (wildcard ∷ []) ∷ []))) }
    ensures before_a_name { IsFalse (is_singular (from_root
        (child (wildcard ∷ []) ∷ member (codes "a") ∷ []))) }
{}

// Classes of characters: the first and the last of each range, and what stands beside them.

fn blanks_and_digits()
    ensures blank { Holds class.is_blank (0x20 ∷ 0x09 ∷ 0x0A ∷ 0x0D ∷ []) }
    ensures no_blank { HoldsNone class.is_blank (0 ∷ 0x08 ∷ 0x0B ∷ 0x0C ∷ 0x0E ∷ 0x1F ∷ 0x21 ∷ 0xA0 ∷ []) }
    ensures digit { Holds class.is_digit (codes "09") }
    ensures no_digit { HoldsNone class.is_digit (codes "/:") }
    ensures positive { Holds class.is_positive_digit (codes "19") }
    ensures not_positive { HoldsNone class.is_positive_digit (codes "0:") }
    ensures quote { Holds class.is_quote (codes "'\"") }
    ensures no_quote { HoldsNone class.is_quote (codes "`!#&(") }
{}

fn letters()
    ensures first { Holds class.is_first (codes "AZaz_" ++ 0x80 ∷ 0xD7FF ∷ 0xE000 ∷ 0x10FFFF ∷ []) }
    ensures not_first { HoldsNone class.is_first (codes "@[`{^09-$." ++ 0x7F
        ∷ 0xD800 ∷ 0xDFFF ∷ 0x110000 ∷ []) }
    ensures later { Holds class.is_name_character (codes "AZaz_09" ++ 0x80 ∷ 0x10FFFF ∷ []) }
    ensures not_later { HoldsNone class.is_name_character (codes "/:@[`{-" ++ 0x7F ∷ 0xD800 ∷ []) }
    ensures lower { Holds class.is_lower (codes "az") }
    ensures not_lower { HoldsNone class.is_lower (codes "`{AZ_0") }
    ensures function { Holds class.is_function_character (codes "az_09") }
    ensures no_function { HoldsNone class.is_function_character (codes "AZ`{/:-" ++ 0x80 ∷ []) }
{}

fn scalar_values()
    ensures scalar { Holds class.is_scalar (0 ∷ 0xD7FF ∷ 0xE000 ∷ 0x10FFFF ∷ []) }
    ensures no_scalar { HoldsNone class.is_scalar (0xD800 ∷ 0xDFFF ∷ 0x110000 ∷ []) }
    ensures bare { Holds (class.is_bare 39) (0x20 ∷ 34 ∷ 0x7F ∷ 0x80 ∷ 0xD7FF ∷ 0xE000 ∷ 0x10FFFF ∷ []) }
    ensures not_bare { HoldsNone (class.is_bare 39) (0 ∷ 0x1F ∷ 39 ∷ 92 ∷ 0xD800 ∷ 0x110000 ∷ []) }
    ensures between_double_quotes { Holds (class.is_bare 34) (codes "'/") }
    ensures double_quote { HoldsNone (class.is_bare 34) (codes "\"\\") }
    ensures high { Holds class.is_high_surrogate (0xD800 ∷ 0xDBFF ∷ []) }
    ensures not_high { HoldsNone class.is_high_surrogate (0xD7FF ∷ 0xDC00 ∷ []) }
    ensures low { Holds class.is_low_surrogate (0xDC00 ∷ 0xDFFF ∷ []) }
    ensures not_low { HoldsNone class.is_low_surrogate (0xDBFF ∷ 0xE000 ∷ []) }
    ensures surrogate { Holds class.is_surrogate (0xD800 ∷ 0xDBFF ∷ 0xDC00 ∷ 0xDFFF ∷ []) }
    ensures no_surrogate { HoldsNone class.is_surrogate (0xD7FF ∷ 0xE000 ∷ []) }
    ensures first_pair { class.pair_value 0xD800 0xDC00 ≡ 0x10000 }
    ensures second_pair { class.pair_value 0xD800 0xDC01 ≡ 0x10001 }
    ensures later_pair { class.pair_value 0xD83D 0xDE00 ≡ 0x1F600 }
    ensures last_pair { class.pair_value 0xDBFF 0xDFFF ≡ 0x10FFFF }
{}

fn hexadecimal_numbers()
    ensures digit { Holds class.is_hex_digit (codes "09AFaf") }
    ensures no_digit { HoldsNone class.is_hex_digit (codes "/:@G`g") }
    ensures zeros { class.hex_number 48 48 48 48 ≡ 0 }
    ensures digits { class.hex_number 49 50 51 57 ≡ 0x1239 }
    ensures upper_case { class.hex_number 65 66 67 70 ≡ 0xABCF }
    ensures lower_case { class.hex_number 97 98 99 102 ≡ 0xABCF }
    ensures all_bits { class.hex_number 70 102 70 102 ≡ 0xFFFF }
{}

// Integers and numbers.

fn integers()
    ensures zero { AreInts (codes "0" ∷ []) }
    ensures positive { AreInts (codes "1" ∷ codes "9" ∷ codes "10" ∷ codes "909" ∷ []) }
    ensures negative { AreInts (codes "-1" ∷ codes "-90" ∷ []) }
{}

fn texts_that_are_no_integers()
    ensures empty { AreNoInts (codes "" ∷ codes "-" ∷ codes "a" ∷ codes " 1" ∷ codes "1 " ∷ []) }
    ensures zeros { AreNoInts (codes "00" ∷ codes "01" ∷ codes "-0" ∷ codes "-01" ∷ []) }
    ensures signs { AreNoInts (codes "+1" ∷ codes "--1" ∷ codes "- 1" ∷ codes "1-" ∷ []) }
    ensures points { AreNoInts (codes "1." ∷ codes ".5" ∷ codes "1.0" ∷ codes "1e1" ∷ []) }
{}

fn numbers()
    ensures whole { AreNumbers (codes "0" ∷ codes "-0" ∷ codes "10" ∷ codes "-90" ∷ []) }
    ensures with_a_fraction { AreNumbers (codes "1.50" ∷ codes "0.0" ∷ codes "-0.9" ∷ []) }
    ensures with_an_exponent { AreNumbers (codes "1e3" ∷ codes "1E3" ∷ codes "1e+3" ∷ codes "1e-03" ∷ []) }
    ensures with_all { AreNumbers (codes "-0.5e-10" ∷ codes "12.50E+10" ∷ []) }
{}

fn texts_that_are_no_numbers()
    ensures empty { AreNoNumbers (codes "" ∷ codes "-" ∷ codes "+1" ∷ codes "--1" ∷ codes " 1" ∷ []) }
    ensures zeros { AreNoNumbers (codes "01" ∷ codes "00" ∷ codes "-00" ∷ codes "-01" ∷ []) }
    ensures points { AreNoNumbers (codes "1." ∷ codes ".5" ∷ codes "-.5"
        ∷ codes "1.e1" ∷ codes "1.2.3" ∷ []) }
    ensures exponents { AreNoNumbers (codes "1e" ∷ codes "1e+" ∷ codes "e1"
        ∷ codes "1e+-1" ∷ codes "1e1.5" ∷ []) }
    ensures other_marks { AreNoNumbers (codes "1d1" ∷ codes "1f1" ∷ codes "1,5"
        ∷ codes "1-5" ∷ codes "1e,1" ∷ []) }
{}

// Strings.

fn strings()
    ensures empty { IsString (codes "''") [] }
    ensures empty_double { IsString (codes "\"\"") [] }
    ensures bare { IsString (codes "'aZ'") (codes "aZ") }
    ensures other_quotes { IsString (codes "'\"'") (codes "\"") }
    ensures other_quotes_in_double { IsString (codes "\"'\"") (codes "'") }
    ensures escapes { IsString (codes "'\\b\\f\\n\\r\\t'") (0x08 ∷ 0x0C ∷ 0x0A ∷ 0x0D ∷ 0x09 ∷ []) }
    ensures escaped_marks { IsString (codes "'\\/\\\\\\''") (codes "/\\'") }
    ensures escaped_marks_in_double { IsString (codes "\"\\/\\\\\\\"\"") (codes "/\\\"") }
    ensures hexadecimal { IsString (codes "\"\\u00e9\\u00E9\"") (0xE9 ∷ 0xE9 ∷ []) }
    ensures beside_surrogates { IsString (codes "'\\uD7FF\\uE000'") (0xD7FF ∷ 0xE000 ∷ []) }
    ensures first_pair { IsString (codes "'\\uD800\\uDC00'") (0x10000 ∷ []) }
    ensures last_pair { IsString (codes "'\\udbff\\uDFFFx'") (0x10FFFF ∷ codes "x") }
{}

fn texts_that_are_no_strings()
    ensures no_quotes { NoneIsString (codes "" ∷ codes "a" ∷ codes "`a`" ∷ codes "'" ∷ codes "\"" ∷ []) }
    ensures unclosed { NoneIsString (codes "'a" ∷ codes "'a\"" ∷ codes "\"a'"
        ∷ codes "'\\'" ∷ codes "'a\\" ∷ []) }
    ensures more_behind { NoneIsString (codes "'a'b" ∷ codes "''''" ∷ codes "''a'" ∷ []) }
    ensures other_quote_escaped { NoneIsString (codes "'\\\"'" ∷ codes "\"\\'\"" ∷ []) }
    ensures unknown_escapes { NoneIsString (codes "'\\x'" ∷ codes "'\\a'"
        ∷ codes "'\\0'" ∷ codes "'\\U0041'" ∷ []) }
    ensures controls { NoneIsString ((39 ∷ 0x1F ∷ 39 ∷ []) ∷ (39 ∷ 0x0A
        ∷ 39 ∷ []) ∷ (39 ∷ 0 ∷ 39 ∷ []) ∷ []) }
    ensures short_numbers { NoneIsString (codes "'\\u'" ∷ codes "'\\u004'" ∷ codes "'\\u00G1'" ∷ []) }
    ensures lone_high { NoneIsString (codes "'\\uD800'" ∷ codes "'\\uDBFF'" ∷ codes "'\\uD83Dx'" ∷ []) }
    ensures lone_low { NoneIsString (codes "'\\uDC00'" ∷ codes "'\\uDFFF'" ∷ codes "'\\uDE00\\uD83D'" ∷ []) }
    ensures high_and_no_low { NoneIsString (codes "'\\uD83D\\u0041'" ∷ codes "'\\uD83D\\uD83D'" ∷ []) }
    ensures high_and_past_low { NoneIsString (codes "'\\uD83D\\uE000'" ∷ codes "'\\uD83D\\uDBFF'" ∷ []) }
    ensures high_and_no_number { NoneIsString (codes "'\\uD83D\\n'" ∷ codes "'\\uD83DuDE00'" ∷ []) }
{}

// Which tree a text spells.

fn spelled_segments()
    ensures dollar { Spells (codes "$") (from_root []) }
    ensures shorthand { Spells (codes "$.a") (from_root (member (codes "a") ∷ [])) }
    ensures upper_case { Spells (codes "$.A") (from_root (member (codes "A") ∷ [])) }
    ensures all_of_a_name { Spells (codes "$._Zz09") (from_root (member (codes "_Zz09") ∷ [])) }
    ensures above_ascii { Spells (codes "$.ü☺") (from_root (member (codes "ü☺") ∷ [])) }
    ensures blank_before { Spells (codes "$ .a") (from_root (member (codes "a") ∷ [])) }
    ensures all_blanks_before { Spells (codes "$ \t\n\r[0]") (from_root (item (codes "0") ∷ [])) }
    ensures two_segments { Spells (codes "$.a.b") (from_root (member (codes "a") ∷ member (codes "b") ∷ [])) }
    ensures blank_between { Spells (codes "$.a .b")
        (from_root (member (codes "a") ∷ member (codes "b") ∷ [])) }
    ensures dot_wildcard { Spells (codes "$.*") (selecting (wildcard ∷ [])) }
    ensures wildcard { Spells (codes "$[*]") (selecting (wildcard ∷ [])) }
    ensures descendant_name { Spells (codes "$..a") (from_root (descendant (name (codes "a") ∷ []) ∷ [])) }
    ensures descendant_wildcard { Spells (codes "$..*") (from_root (descendant (wildcard ∷ []) ∷ [])) }
    ensures descendant_index { Spells (codes "$..[0]")
        (from_root (descendant (index (codes "0") ∷ []) ∷ [])) }
{}

fn spelled_selectors()
    ensures single_quotes { Spells (codes "$['a']") (selecting (name (codes "a") ∷ [])) }
    ensures double_quotes { Spells (codes "$[\"a\"]") (selecting (name (codes "a") ∷ [])) }
    ensures empty_name { Spells (codes "$['']") (selecting (name [] ∷ [])) }
    ensures blanks { Spells (codes "$[ 'a' , 0 ]") (selecting (name (codes "a") ∷ index (codes "0") ∷ [])) }
    ensures negative_index { Spells (codes "$[-10]") (selecting (index (codes "-10") ∷ [])) }
    ensures two_indexes { Spells (codes "$[0,-1]") (selecting (index (codes "0") ∷ index (codes "-1") ∷ [])) }
    ensures the_same_twice { Spells (codes "$[*,*]") (selecting (wildcard ∷ wildcard ∷ [])) }
    ensures filter_and_name { Spells (codes "$[?@.a,'b']")
        (selecting (filter (has (codes "a")) ∷ name (codes "b") ∷ [])) }
    ensures pair_of_surrogates { Spells (codes "$['\\uD83D\\uDE00']") (selecting (name (0x1F600 ∷ []) ∷ [])) }
    ensures other_quote { Spells (codes "$[\"'\"]") (selecting (name (codes "'") ∷ [])) }
    ensures escaped_quote { Spells (codes "$['\\'']") (selecting (name (codes "'") ∷ [])) }
{}

fn spelled_slices()
    ensures whole { Spells (codes "$[1:2:3]")
        (selecting (slice (Some (codes "1")) (Some (codes "2")) (Some (codes "3")) ∷ [])) }
    ensures blanks_between { Spells (codes "$[1 : 2 : 3]")
        (selecting (slice (Some (codes "1")) (Some (codes "2")) (Some (codes "3")) ∷ [])) }
    ensures blanks_around { Spells (codes "$[ 1 : 2 : ]")
        (selecting (slice (Some (codes "1")) (Some (codes "2")) None ∷ [])) }
    ensures first_alone { Spells (codes "$[1:]") (selecting (slice (Some (codes "1")) None None ∷ [])) }
    ensures past_alone { Spells (codes "$[:-1]") (selecting (slice None (Some (codes "-1")) None ∷ [])) }
    ensures step_alone { Spells (codes "$[::-1]") (selecting (slice None None (Some (codes "-1")) ∷ [])) }
    ensures nothing { Spells (codes "$[:]") (selecting (slice None None None ∷ [])) }
    ensures two_colons { Spells (codes "$[ : : ]") (selecting (slice None None None ∷ [])) }
    ensures then_an_index { Spells (codes "$[: ,0]")
        (selecting (slice None None None ∷ index (codes "0") ∷ [])) }
{}

fn spelled_tests()
    ensures member { Spells (codes "$[?@.a]") (filtering (has (codes "a"))) }
    ensures blanks_around { Spells (codes "$[ ? @.a ]") (filtering (has (codes "a"))) }
    ensures parentheses { Spells (codes "$[?(@.a)]") (filtering (has (codes "a"))) }
    ensures blanks_in_parentheses { Spells (codes "$[?( @.a )]") (filtering (has (codes "a"))) }
    ensures two_parentheses { Spells (codes "$[?((@.a))]") (filtering (has (codes "a"))) }
    ensures negation { Spells (codes "$[?!(@.a)]") (filtering (negation (has (codes "a")))) }
    ensures negated_query { Spells (codes "$[?!@.a]") (filtering (negation (has (codes "a")))) }
    ensures negated_call { Spells (codes "$[?!f()]")
        (filtering (negation (test_call (calling (codes "f") [])))) }
    ensures blank_behind_not { Spells (codes "$[?! @.a]") (filtering (negation (has (codes "a")))) }
    ensures from_the_root { Spells (codes "$[?$]") (filtering (test (from_root []))) }
    ensures several_nodes { Spells (codes "$[?@.*]") (testing (child (wildcard ∷ []) ∷ [])) }
    ensures two_names { Spells (codes "$[?@['a','b']]")
        (testing (child (name (codes "a") ∷ name (codes "b") ∷ []) ∷ [])) }
    ensures blank_before_a_segment { Spells (codes "$[?@ .a]") (filtering (has (codes "a"))) }
    ensures filter_inside { Spells (codes "$[?@[?@.a]]")
        (testing (child (filter (has (codes "a")) ∷ []) ∷ [])) }
{}

fn spelled_parts()
    ensures and { Spells (codes "$[?@.a&&@.b&&@.c]")
        (filtering (both (has (codes "a") ∷ has (codes "b") ∷ has (codes "c") ∷ []))) }
    ensures blanks_around_and { Spells (codes "$[?@.a && @.b]")
        (filtering (both (has (codes "a") ∷ has (codes "b") ∷ []))) }
    ensures blanks_around_or { Spells (codes "$[?@.a || @.b]")
        (filtering (either (has (codes "a") ∷ has (codes "b") ∷ []))) }
    ensures and_or { Spells (codes "$[?@.a&&@.b||@.c]")
        (filtering (either (both (has (codes "a") ∷ has (codes "b") ∷ []) ∷ has (codes "c") ∷ []))) }
    ensures or_and { Spells (codes "$[?@.a||@.b&&@.c]")
        (filtering (either (has (codes "a") ∷ both (has (codes "b") ∷ has (codes "c") ∷ []) ∷ []))) }
    ensures or_in_parentheses { Spells (codes "$[?(@.a||@.b)||@.c]")
        (filtering (either (either (has (codes "a") ∷ has (codes "b") ∷ []) ∷ has (codes "c") ∷ []))) }
    ensures negation_and_comparison { Spells (codes "$[?!@.a||@.c==1]")
        (filtering
        (either (negation (has (codes "a")) ∷ equal (single (its (codes "c"))) (literal one) ∷ []))) }
{}

fn spelled_comparisons()
    ensures literals { Spells (codes "$[?1==1]") (filtering (equal (literal one) (literal one))) }
    ensures string_and_query { Spells (codes "$[?'a'==@.a]")
        (filtering (equal (literal (text (codes "a"))) (single (its (codes "a"))))) }
    ensures query_and_query { Spells (codes "$[?@ .a==@[ 'b' ]]")
        (filtering (equal (single (its (codes "a"))) (single (its (codes "b"))))) }
    ensures blanks_in_singular { Spells (codes "$[?@[ 'a' ]==1]")
        (filtering (equal (single (its (codes "a"))) (literal one))) }
    ensures at_least_null { Spells (codes "$[?@>=null]") (comparing_literal op.Ge null) }
    ensures below_a_string { Spells (codes "$[?@<'b']") (comparing_literal op.Lt (text (codes "b"))) }
    ensures double_quotes { Spells (codes "$[?@==\"b\"]") (comparing_literal op.Eq (text (codes "b"))) }
    ensures not_false { Spells (codes "$[?@!=false]") (comparing_literal op.Ne (truth false)) }
    ensures equal_to_true { Spells (codes "$[?@==true]") (comparing_literal op.Eq (truth true)) }
    ensures at_most_minus_zero { Spells (codes "$[?@<=-0]") (comparing_literal op.Le (number (codes "-0"))) }
    ensures above_a_fraction { Spells (codes "$[?@>1.50]") (comparing_literal op.Gt (number (codes "1.50"))) }
    ensures below_an_exponent { Spells (codes "$[?@<1E+3]")
        (comparing_literal op.Lt (number (codes "1E+3"))) }
    ensures root_inside { Spells (codes "$[?@==$]")
        (filtering (comparing_node op.Eq (single (from_root [])))) }
    ensures call_on_the_right { Spells (codes "$[?@==f()]")
        (filtering (comparing_node op.Eq (value_call (calling (codes "f") [])))) }
    ensures blanks_around { Spells (codes "$[? @ == null ]") (comparing_literal op.Eq null) }
{}

fn spelled_calls()
    ensures no_argument { Spells (codes "$[?f()]") (testing_call (codes "f") []) }
    ensures blank_and_no_argument { Spells (codes "$[?f( )]") (testing_call (codes "f") []) }
    ensures function_name { Spells (codes "$[?a_z09()]") (testing_call (codes "a_z09") []) }
    ensures call_named_true { Spells (codes "$[?true()]") (testing_call (codes "true") []) }
    ensures true_compared { Spells (codes "$[?true()==1]") (comparing_call (codes "true") []) }
    ensures two_arguments { Spells (codes "$[?match(@,'a.c')]")
        (testing_call (codes "match")
        (query_argument (from_current []) ∷ literal_argument (text (codes "a.c")) ∷ [])) }
    ensures blanks_around_arguments { Spells (codes "$[?f( 1 , null )]")
        (testing_call (codes "f") (literal_argument one ∷ literal_argument null ∷ [])) }
{}

fn spelled_arguments()
    ensures query { Spells (codes "$[?count(@.a)==1]")
        (comparing_call (codes "count") (query_argument (its (codes "a")) ∷ [])) }
    ensures query_in_parentheses { Spells (codes "$[?count((@.a))==1]")
        (comparing_call (codes "count") (logical_argument (has (codes "a")) ∷ [])) }
    ensures call { Spells (codes "$[?f(true( ))]")
        (testing_call (codes "f") (call_argument (calling (codes "true") []) ∷ [])) }
    ensures call_in_parentheses { Spells (codes "$[?f((g()))]")
        (testing_call (codes "f") (logical_argument (test_call (calling (codes "g") [])) ∷ [])) }
    ensures word { Spells (codes "$[?f(true)]")
        (testing_call (codes "f") (literal_argument (truth true) ∷ [])) }
    ensures comparison { Spells (codes "$[?f(1==1)]")
        (testing_call (codes "f") (logical_argument (equal (literal one) (literal one)) ∷ [])) }
    ensures negation { Spells (codes "$[?f(!@.a)]")
        (testing_call (codes "f") (logical_argument (negation (has (codes "a"))) ∷ [])) }
    ensures and { Spells (codes "$[?f(@.a&&@.b)]")
        (testing_call (codes "f") (logical_argument (both (has (codes "a") ∷ has (codes "b") ∷ [])) ∷ [])) }
    ensures or { Spells (codes "$[?f(@.a||@.b)]")
        (testing_call (codes "f") (logical_argument (either (has (codes "a") ∷ has (codes "b") ∷ [])) ∷ [])) }
{}

// Texts that spell no tree.

fn refused_texts()
    ensures starts { NoneSpells (codes "" ∷ codes " " ∷ codes "a"
        ∷ codes "@" ∷ codes "@.a" ∷ codes " $" ∷ []) }
    ensures behind { NoneSpells (codes "$$" ∷ codes "$a" ∷ codes "$ " ∷ codes "$.a " ∷ codes "$[0]\n" ∷ []) }
{}

fn refused_segments()
    ensures blanks { NoneSpells (codes "$. a" ∷ codes "$.. a" ∷ codes "$. *"
        ∷ codes "$.. [0]" ∷ codes "$. .a" ∷ []) }
    ensures points_alone { NoneSpells (codes "$." ∷ codes "$.." ∷ codes "$...a" ∷ codes "$.a." ∷ []) }
    ensures bracket_behind_a_point { NoneSpells (codes "$.['a']" ∷ codes "$.a.[0]" ∷ []) }
    ensures no_name { NoneSpells (codes "$.1" ∷ codes "$.-a" ∷ codes "$.a-b"
        ∷ codes "$.*a" ∷ codes "$.a$" ∷ []) }
{}

fn refused_selectors()
    ensures none { NoneSpells (codes "$[]" ∷ codes "$[ ]" ∷ codes "$["
        ∷ codes "$]" ∷ codes "$[0" ∷ codes "$[0]]" ∷ []) }
    ensures commas { NoneSpells (codes "$[0,]" ∷ codes "$[,0]" ∷ codes "$[0,,1]" ∷ codes "$['a' 'b']" ∷ []) }
    ensures slices { NoneSpells (codes "$[1:2:3:4]" ∷ codes "$[::-0]"
        ∷ codes "$[:01]" ∷ codes "$[-0:]" ∷ []) }
    ensures indexes { NoneSpells (codes "$[-0]" ∷ codes "$[01]" ∷ codes "$[1.0]"
        ∷ codes "$[+1]" ∷ codes "$[- 1]" ∷ []) }
    ensures others { NoneSpells (codes "$[a]" ∷ codes "$[@.a]" ∷ codes "$[(@.a)]" ∷ codes "$[true]" ∷ []) }
    ensures escapes { NoneSpells (codes "$['\\x']" ∷ codes "$['\\\"']"
        ∷ codes "$[\"\\'\"]" ∷ codes "$['a\"]" ∷ []) }
    ensures surrogates { NoneSpells (codes "$['\\uD83D']" ∷ codes "$['\\uDE00']"
        ∷ codes "$['\\uD83D\\u0041']" ∷ []) }
{}

fn refused_filters()
    ensures nothing { NoneSpells (codes "$[?]" ∷ codes "$[?()]" ∷ codes "$[?!]"
        ∷ codes "$[@]" ∷ codes "$[?a]" ∷ []) }
    ensures negations { NoneSpells (codes "$[?!!@.a]" ∷ codes "$[?!1]"
        ∷ codes "$[?!@.a==1]" ∷ codes "$[?!(@)==1]" ∷ []) }
    ensures several_nodes { NoneSpells (codes "$[?@.*==1]" ∷ codes "$[?1==@..a]"
        ∷ codes "$[?@[0,1]==1]" ∷ []) }
    ensures slice_compared { NoneSpells (codes "$[?@[:]==1]" ∷ codes "$[?@[?@]==1]" ∷ []) }
    ensures literals { NoneSpells
        (codes "$[?true]" ∷ codes "$[?1]" ∷ codes "$[?'a']"
        ∷ codes "$[?null]" ∷ codes "$[?(1)]" ∷ []) }
    ensures comparisons { NoneSpells (codes "$[?@==1==2]" ∷ codes "$[?@==(1)]"
        ∷ codes "$[?(@)==1]" ∷ codes "$[?1==!@]" ∷ []) }
    ensures operators { NoneSpells
        (codes "$[?@=1]" ∷ codes "$[?@= =1]" ∷ codes "$[?@<>1]"
        ∷ codes "$[?@!1]" ∷ codes "$[?@==]" ∷ []) }
    ensures ands { NoneSpells
        (codes "$[?@&@]" ∷ codes "$[?@|@]" ∷ codes "$[?@& &@]"
        ∷ codes "$[?@&&]" ∷ codes "$[?||@]" ∷ []) }
    ensures parentheses { NoneSpells (codes "$[?(@]" ∷ codes "$[?@)]"
        ∷ codes "$[?((@)]" ∷ codes "$[?@" ∷ []) }
{}

fn refused_calls()
    ensures blanks { NoneSpells (codes "$[?f (@)]" ∷ codes "$[?f ()]" ∷ []) }
    ensures names { NoneSpells (codes "$[?F(@)]" ∷ codes "$[?fA(@)]"
        ∷ codes "$[?_f(@)]" ∷ codes "$[?1f(@)]" ∷ []) }
    ensures commas { NoneSpells (codes "$[?f(,)]" ∷ codes "$[?f(@,)]"
        ∷ codes "$[?f(@ @)]" ∷ codes "$[?f(@]" ∷ []) }
    ensures arguments { NoneSpells (codes "$[?f((1))]" ∷ codes "$[?f(!1)]"
        ∷ codes "$[?f(1&&@)]" ∷ codes "$[?f(a)]" ∷ []) }
    ensures behind { NoneSpells (codes "$[?f().a]" ∷ codes "$[?f()()]" ∷ codes "$[?@.f()]" ∷ []) }
    ensures words { NoneSpells (codes "$[?@==True]" ∷ codes "$[?@==nul]" ∷ codes "$[?@==truex]" ∷ []) }
{}
