//! Laws of the definitions, each the contract of a function that does nothing.

ghost use Rattle.std.specs.Prelude.{◌≡◌, ◌∷◌, ◌<◌, ℕ, List, [], false, Option, None, Some};
ghost use Rattle.std.specs.Prelude.{IfSome, codes, length};
ghost use Rattle.std.specs.Io.KnownBytes.{Appends};
ghost use Rattle.std.specs.Str.{chars, IsUtf8};
ghost use Rattle.jp_doc.specs.Lines.{Line};
ghost use Rattle.jp_doc.specs.Location.{Node};
ghost use Rattle.jp_doc.specs.declared.fault.DocFault.{DocFault};
ghost use Rattle.jp_pattern.specs.Tests.{Tests, AreRight};
ghost use Rattle.jp_answer.specs.FilteredQuery.{FilteredQuery};
ghost use Rattle.jp_answer.specs.Answer.{Answer, answer_by};
ghost use Rattle.jp_answer.specs.Policy.{policy};
ghost use Rattle.jp_answer.specs.declared.on_fault.OnFault.TheVariants.{Stop, KeepGoing};
ghost use Rattle.jp_number.specs.declared.numbers.Numbers.TheVariants.{Whole};
ghost use Rattle.jp_output.specs.Fields.{IsFieldName};
ghost use Rattle.jp_output.specs.OutputForm.{row_lines};
ghost use Rattle.jp_output.specs.declared.layout.Ending.TheVariants.{LineFeed};
ghost use Rattle.jp_run.specs.AskedTexts.{AreAcceptedIn};
ghost use Rattle.jp_run.specs.Cutting.{documents};
ghost use Rattle.jp_run.specs.declared.cutting.Cutting.TheVariants as Cutting;
ghost use Rattle.jp_run.specs.declared.output.Output.TheVariants.{Nodes};
ghost use Rattle.jp_program.specs.CommandLine.{AsksToQuote};
ghost use Rattle.jp_program.specs.Inputs.{Course, EachInTurn, EndsIn, Held, Input, Standing, inputs_of};
ghost use Rattle.jp_program.specs.Inputs.{standard};
ghost use Rattle.jp_program.specs.Outcome.{AreFailed, ArePassed, HasFailed, IsAnswered, IsFront, IsWhole};
ghost use Rattle.jp_program.specs.Outcome.{IsWholeOrCut, Left, asked_in, form_for, numbering_in, told};
ghost use Rattle.jp_program.specs.Wanted.{IsName, Wanted, Wants};

/// A command line that is a query alone, which begins with `$` as each query does: the words are taken, they
/// want a run of that very query, and the rest is as by default. So they do whatever the program is called.
pub fn query_alone()
    ensures { (name rest : List ℕ) → Wants (name ∷ (36 ∷ rest) ∷ []) (record {
      query = chars (36 ∷ rest);
      filter = None;
      files = [];
      names = false;
      cutting = Cutting.Lines;
      check = false;
      counts = false;
      output = Nodes;
      ending = LineFeed;
      fields = [];
      numbers = Whole;
      on_fault = Stop;
      explain = false;
      exit_status = false;
      workers = 4;
      piece = 64;
      batch = 4096;
      before = 0;
    }) }
{}

/// Words want one thing: one query, files in one order, with their names or without, one way of cutting them,
/// a check of it or a run, one form of the answer, one ending of values, one choice of numbers, of what a
/// faulty line does and of what the status tells, and one of settings.
pub fn one_wish()
    ensures { (words : List (List ℕ)) (v w : Wanted) → Wants words v → Wants words w → v ≡ w }
{}

/// Words that ask for a literal want nothing else: no query, whatever stands in the place of the text.
pub fn quoting_stands_alone()
    ensures { (words : List (List ℕ)) (w : Wanted) → AsksToQuote words → Wants words w → ⊥ }
{}

/// A name that the command line may have, which is text, is a field: no tab and no line feed is among its
/// bytes. So a line behind it has four fields (`four_fields` of `jp_output`).
pub fn name_is_field()
    ensures { (name : List ℕ) → IsUtf8 name → IsName name → IsFieldName name }
{}

/// Where no file is named, what is said of inputs in turn is said of standard input, and of nothing else: so
/// each status tells of it what it told before there were files.
pub fn no_file()
    ensures answered { (w : Wanted) (holds : List ℕ → Held) (first : Held) (old new : Option (List ℕ))
        → EachInTurn (IsAnswered w None) (inputs_of [] holds first) old new
        → IsAnswered w None (standard first) old new }
    ensures stopped { (w : Wanted) (stop : ℕ × DocFault) (holds : List ℕ → Held) (first : Held) (c : Course)
        → EndsIn (IsWholeOrCut w) (IsAnswered w (Some stop)) [] holds first c
        → IsAnswered w (Some stop) (standard first) c.contents c.contents_new }
    ensures failed { (w : Wanted) (e : Left) (holds : List ℕ → Held) (first : Held) (c : Course)
        → w.files ≡ [] → AreFailed w e holds first c
        → HasFailed w e (standard first) c.contents c.contents_new }
    ensures front { (w : Wanted) (holds : List ℕ → Held) (first : Held) (c : Course)
        → EndsIn (IsWholeOrCut w) (IsFront w) [] holds first c
        → IsFront w (standard first) c.contents c.contents_new }
    ensures passed { (w : Wanted) (holds : List ℕ → Held) (first : Held) (old new : Option (List ℕ))
        → ArePassed w (inputs_of [] holds first) old new → IfSome first (λ bytes. (q : FilteredQuery)
        × AreAcceptedIn w.numbers (asked_in w) q × (x : Answer)
        × ((t : Tests) → AreRight t → answer_by (form_for w (codes "-")) (policy w.numbers KeepGoing) t
        q (documents (numbering_in w) bytes) ≡ x) × (0 < x.faulty)
        × Appends old new (told w (codes "-") x)) }
    ensures whole { (w : Wanted) (input : Input) (old new : Option (List ℕ)) → w.on_fault ≡ Stop
        → IsWhole w input old new → IsAnswered w None input old new }
{}

/// What is counted is nodes: a row of no fields is one byte, so the answer in such rows has as many bytes as
/// there are nodes, and none for a faulty line.
pub fn counts_are_nodes()
    ensures one_each { (l : Line) (ns : List Node) → length ((row_lines []).of_document l ns) ≡ length ns }
    ensures none { (number : ℕ) (fault : DocFault) → (row_lines []).of_fault number fault ≡ [] }
{}

/// Where the answer does not keep going no input is passed: each before the one at which a run ends was
/// answered, and none has failed.
pub fn none_is_passed()
    ensures { (w : Wanted) (inputs : List Input) (old new : Standing) → w.on_fault ≡ Stop
        → EachInTurn (IsWholeOrCut w) inputs old new
        → EachInTurn (IsWhole w) inputs old.0 new.0 × (new.1 ≡ old.1) }
{}
